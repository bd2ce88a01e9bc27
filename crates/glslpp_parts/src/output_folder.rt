//! The files of a folder that outputs are written to.

use crate::failure::{Failure, failure_of};
use std::alloc::Global;

/// Returns for each source the file in the folder that has the last part of its name. It fails if two sources have the
/// same, and at a name without such a part.
pub fn outputs_in(alloc: Global, folder: &str, sources: &[&str]) -> Result<Vec<String>, Failure> {
    let mut outputs: Vec<String> = Vec::new(alloc);
    for source in sources {
        let output = output_in(alloc, folder, source)?;
        if outputs
            .iter()
            .any(|other| other.as_str() == output.as_str())
        {
            let cause = "two sources have this output";
            return Err(failure_of(alloc, output.as_str(), cause));
        }
        outputs.push(output)?;
    }
    Ok(outputs)
}

fn output_in(alloc: Global, folder: &str, source: &str) -> Result<String, Failure> {
    let name = match source.rsplit_once('/') {
        Some((_, name)) => name,
        None => source,
    };
    if name.is_empty() {
        return Err(failure_of(alloc, source, "the source has no name for its output"));
    }
    let folder = folder.trim_end_matches('/');
    Ok(format!(in alloc; "{folder}/{name}")?)
}
