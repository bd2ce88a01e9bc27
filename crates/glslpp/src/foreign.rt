//! Options as other preprocessors have them, each refused with its reason.

const NO_KINDS: &str = "the folders of included files are those of -I";

const NO_MACROS_ALONE: &str = "glslpp includes whole files: -include";

const NO_MISSING: &str = "each included file must be there";

const NO_VERSION: &str =
    "the version is that of the source's #version, and without one that of -std=VERSION";

const NO_COMMENTS: &str = "glslpp keeps no comments";

const NO_LIST: &str = "glslpp lists definitions by -dM";

const NO_COMPILER: &str = "glslpp only preprocesses";

// The beginnings of options, and why they are refused.
const REFUSALS: [(&str, &str); 16] = [
    ("-imacros", NO_MACROS_ALONE),
    ("-iquote", NO_KINDS),
    ("-isystem", NO_KINDS),
    ("-idirafter", NO_KINDS),
    ("-MG", NO_MISSING),
    ("-std", NO_VERSION),
    ("--glsl-version", NO_VERSION),
    ("-C", NO_COMMENTS),
    ("-d", NO_LIST),
    ("-c", NO_COMPILER),
    ("-f", NO_COMPILER),
    ("-g", NO_COMPILER),
    ("-O", NO_COMPILER),
    ("-x", NO_COMPILER),
    ("--target-env", NO_COMPILER),
    ("--target-spv", NO_COMPILER),
];

/// Returns why a word of the command line is refused, if it is an option of another preprocessor.
pub(crate) fn refusal_of(word: &str) -> Option<&'static str> {
    for (start, refusal) in REFUSALS {
        if word.starts_with(start) {
            return Some(refusal);
        }
    }
    None
}
