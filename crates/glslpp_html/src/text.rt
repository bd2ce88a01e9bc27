//! Texts in a page, and in the values of attributes.

ghost use Rattle.std.specs.Prelude.{◌≡◌, ◌++◌, OnOk, string_bytes};
ghost use Rattle.std.specs.Str.{chars};
ghost use Rattle.std.specs.List.{flat_map};
ghost use Rattle.glslpp_html.specs.Shown.{escaped_character, link_character, value_character};

use std::alloc::AllocError;

/// Appends a text.
pub(crate) fn push_text(page: &mut String, text: &str) -> Result<(), AllocError>
    ensures { OnOk result (chars (string_bytes page.new)
        ≡ chars (string_bytes page.old) ++ flat_map escaped_character (chars text.now)) }
{
    'characters: for c in text.chars() {
        push_escaped(page, c)?;
    }
    Ok(())
}

/// Appends the value of an attribute.
pub(crate) fn push_value(page: &mut String, value: &str) -> Result<(), AllocError>
    ensures { OnOk result (chars (string_bytes page.new)
        ≡ chars (string_bytes page.old) ++ flat_map value_character (chars value.now)) }
{
    'characters: for c in value.chars() {
        push_value_character(page, c)?;
    }
    Ok(())
}

// Appends a character of a value.
fn push_value_character(page: &mut String, c: char) -> Result<(), AllocError>
    ensures { OnOk result (chars (string_bytes page.new)
        ≡ chars (string_bytes page.old) ++ value_character c) }
{
    match c {
        '"' => page.push_str("&quot;"),
        '>' => page.push_str("&gt;"),
        _ => push_escaped(page, c),
    }
}

// Appends a character of a text.
fn push_escaped(page: &mut String, c: char) -> Result<(), AllocError>
    ensures { OnOk result (chars (string_bytes page.new)
        ≡ chars (string_bytes page.old) ++ escaped_character c) }
{
    match c {
        '<' => page.push_str("&lt;"),
        '&' => page.push_str("&amp;"),
        '\r' => page.push_str("&#13;"),
        '\0' => page.push('\u{fffd}'),
        _ => page.push(c),
    }
}

/// Appends the name of a file as a link has it.
pub(crate) fn push_link(link: &mut String, name: &str) -> Result<(), AllocError>
    ensures { OnOk result (chars (string_bytes link.new)
        ≡ chars (string_bytes link.old) ++ flat_map link_character (chars name.now)) }
{
    'characters: for c in name.chars() {
        push_link_character(link, c)?;
    }
    Ok(())
}

// Appends a character of a file's name.
fn push_link_character(link: &mut String, c: char) -> Result<(), AllocError>
    ensures { OnOk result (chars (string_bytes link.new)
        ≡ chars (string_bytes link.old) ++ link_character c) }
{
    match c {
        '%' => link.push_str("%25"),
        '#' => link.push_str("%23"),
        '?' => link.push_str("%3F"),
        '\\' => link.push_str("%5C"),
        _ => link.push(c),
    }
}
