//! Tags of a page.

ghost use Rattle.std.specs.Prelude.{◌≡◌, [], true, OnOk, string_bytes};
ghost use Rattle.std.specs.Str.{chars};
ghost use Rattle.glslpp_html.specs.Shown.{is_beginning, is_element};
ghost use Rattle.glslpp_html.specs.Written.{HasAttributes, ShowsMore};

use crate::text::push_value;
use std::alloc::AllocError;

/// An element of a page.
#[derive(Clone, Copy)]
pub(crate) enum Element {
    Span,
    Link,
    // What can be opened, and what of it is always shown.
    Details,
    Summary,
    // A block of lines, or one of them.
    Block,
    Heading,
}

impl Element {
    fn name(self) -> &'static str
        ensures { is_element (chars result.now) ≡ true }
    {
        match self {
            Element::Span => "span",
            Element::Link => "a",
            Element::Details => "details",
            Element::Summary => "summary",
            Element::Block => "div",
            Element::Heading => "h2",
        }
    }
}

/// An attribute of an element.
#[derive(Clone, Copy)]
pub(crate) enum Attribute {
    Class,
    Id,
    Title,
    TabIndex,
    // What is shown beside the element.
    Note,
    // The id in the page to which a link leads.
    Target,
    // The page beside this one to which a link leads.
    Page,
}

impl Attribute {
    // What is before its value.
    fn beginning(self) -> &'static str
        ensures { is_beginning (chars result.now) ≡ true }
    {
        match self {
            Attribute::Class => " class=\"",
            Attribute::Id => " id=\"",
            Attribute::Title => " title=\"",
            Attribute::TabIndex => " tabindex=\"",
            Attribute::Note => " data-note=\"",
            Attribute::Target => " href=\"#",
            Attribute::Page => " href=\"./",
        }
    }
}

/// Appends the tag that begins an element. Attributes whose values are empty are left out.
pub(crate) fn open(
    page: &mut String,
    element: Element,
    attributes: &[(Attribute, &str)],
) -> Result<(), AllocError>
    ensures { OnOk result (ShowsMore (string_bytes page.old) (string_bytes page.new) []) }
{
    page.push_str("<")?;
    page.push_str(element.name())?;
    push_attributes(page, attributes)?;
    page.push_str(">")
}

/// Appends the tag that ends an element.
pub(crate) fn close(page: &mut String, element: Element) -> Result<(), AllocError>
    ensures { OnOk result (ShowsMore (string_bytes page.old) (string_bytes page.new) []) }
{
    page.push_str("</")?;
    page.push_str(element.name())?;
    page.push_str(">")
}

fn push_attributes(page: &mut String, attributes: &[(Attribute, &str)]) -> Result<(), AllocError>
    ensures { OnOk result (HasAttributes (string_bytes page.old) (string_bytes page.new)) }
{
    for (attribute, value) in attributes {
        push_attribute(page, *attribute, value)?;
    }
    Ok(())
}

// Appends an attribute, unless its value is empty.
fn push_attribute(page: &mut String, attribute: Attribute, value: &str) -> Result<(), AllocError>
    ensures { OnOk result (HasAttributes (string_bytes page.old) (string_bytes page.new)) }
{
    if value.is_empty() {
        return Ok(());
    }
    page.push_str(attribute.beginning())?;
    push_value(page, value)?;
    page.push_str("\"")
}
