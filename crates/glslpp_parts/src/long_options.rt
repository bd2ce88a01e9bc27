//! Options with one dash and a word, as gcc has them, by the long names that `clap` asks for.

ghost use Rattle.std.specs.Prelude.{◌≡◌, IfOk, OnOk, MatchOption, map, option_map, string_bytes, unwrap_or};
ghost use Rattle.glslpp_parts.specs.LongOptions.{by_long_name, each_option, long_name, long_name_with_value};

use std::alloc::{AllocError, Global};

/// Gives each word that is such an option its long name. From a word `--` on there are no options. It takes memory for
/// each such word, and fails only for want of it.
pub fn lengthen_options(alloc: Global, words: &mut [String]) -> Result<(), AllocError>
    ensures { OnOk result (map string_bytes words.new ≡ each_option by_long_name (map string_bytes words.old)) }
{
    for word in words.iter_mut() {
        if word.as_str() == "--" {
            return Ok(());
        }
        lengthen(alloc, word)?;
    }
    Ok(())
}

fn lengthen(alloc: Global, word: &mut String) -> Result<(), AllocError>
    ensures { OnOk result (string_bytes word.new ≡ by_long_name (string_bytes word.old)) }
{
    if let Some(long) = long_name(word.as_str()) {
        *word = String::from_str(alloc, long)?;
    } else if let Some((long, value)) = long_name_with_value(word.as_str()) {
        *word = format!(in alloc; "{long}={value}")?;
    }
    Ok(())
}

// The long name of a word that is such an option.
fn long_name(word: &str) -> Option<&'static str>
    ensures { option_map (λ name. name.now) result ≡ long_name word.now }
{
    match word {
        "-M" | "-MM" => Some("--dependencies"),
        "-MD" | "-MMD" => Some("--write-dependencies"),
        "-MP" => Some("--phony-targets"),
        "-MF" => Some("--dependency-file"),
        "-MT" => Some("--target"),
        "-MQ" => Some("--quoted-target"),
        "-include" => Some("--include"),
        "-dM" => Some("--definitions"),
        _ => None,
    }
}

// The long name of such an option, and the value that follows it in its word.
fn long_name_with_value(word: &str) -> Option<(&'static str, &str)>
    ensures { option_map (λ found. (found.0.now, found.1.now)) result ≡ long_name_with_value word.now }
{
    if let Some(file) = word.strip_prefix("-MF") {
        return Some(("--dependency-file", file));
    }
    if let Some(target) = word.strip_prefix("-MT") {
        return Some(("--target", target));
    }
    let target = word.strip_prefix("-MQ")?;
    Some(("--quoted-target", target))
}
