//! Texts inside strings of JSON, and as XML.

ghost use Rattle.std.specs.Prelude.{Some, encode_utf8};
ghost use Rattle.std.specs.Fmt.{DisplaysOnOk};
ghost use Rattle.gpu_report.specs.Escape.{escaped, escaped_char, xml_char, quoted};

use std::fmt;

/// What a text is written into.
#[derive(Clone, Copy)]
pub enum Escaping {
    /// Between the quotes of a JSON string.
    Json,
    /// Between the tags of XML, or in an attribute.
    Xml,
}

#[tactic(auto, unfolding(crate::specs::Escape::json_byte))]
fn write_json_char<W: fmt::Write>(c: char, f: &mut fmt::Formatter<W>) -> fmt::Result
    ensures { DisplaysOnOk W.write_str_gives f.old result
        (Some (escaped Escaping.Json (encode_utf8 c))) f.new }
{
    match c {
        '"' => f.write_str("\\\""),
        '\\' => f.write_str("\\\\"),
        '\u{8}' => f.write_str("\\b"),
        '\u{c}' => f.write_str("\\f"),
        '\n' => f.write_str("\\n"),
        '\r' => f.write_str("\\r"),
        '\t' => f.write_str("\\t"),
        '\0'..='\u{1f}' => {
            let high = c as u32 / 16;
            let low = c as u32 % 16;
            write!(f, "\\u00{high:x}{low:x}")
        }
        _ => f.write_char(c),
    }
}

#[tactic(auto, unfolding(crate::specs::Escape::xml_char))]
fn write_xml_char<W: fmt::Write>(c: char, f: &mut fmt::Formatter<W>) -> fmt::Result
    ensures { DisplaysOnOk W.write_str_gives f.old result (Some (xml_char c)) f.new }
{
    match c {
        '&' => f.write_str("&amp;"),
        '<' => f.write_str("&lt;"),
        '>' => f.write_str("&gt;"),
        '"' => f.write_str("&quot;"),
        '\0'..='\u{1f}' | '\u{fffe}' | '\u{ffff}' => f.write_str("?"),
        _ => f.write_char(c),
    }
}

fn write_char<W: fmt::Write>(form: Escaping, c: char, f: &mut fmt::Formatter<W>) -> fmt::Result
    ensures { DisplaysOnOk W.write_str_gives f.old result (Some (escaped_char form c)) f.new }
{
    match form {
        Escaping::Json => write_json_char(c, f),
        Escaping::Xml => write_xml_char(c, f),
    }
}

/// Writes a text so that it reads back as it is there.
pub fn write_escaped<W: fmt::Write>(
    form: Escaping,
    text: &str,
    f: &mut fmt::Formatter<W>,
) -> fmt::Result
    ensures { DisplaysOnOk W.write_str_gives f.old result (Some (escaped form text.now)) f.new }
{
    for c in text.chars() {
        write_char(form, c, f)?;
    }
    Ok(())
}

/// Writes a string of JSON.
#[tactic(auto, unfolding(crate::specs::Escape::quoted))]
pub fn write_quoted<W: fmt::Write>(text: &str, f: &mut fmt::Formatter<W>) -> fmt::Result
    ensures { DisplaysOnOk W.write_str_gives f.old result (Some (quoted text.now)) f.new }
{
    f.write_str("\"")?;
    write_escaped(Escaping::Json, text, f)?;
    f.write_str("\"")
}
