//! A message's bodies as one text: of each body its language and then its text, each with its length in bytes and a
//! colon before it, as `2:de5:hallo`.
use base_io::{ListOf, NoMemory, Text};
use mam_archive::{Bodies, Body};
use std::alloc::Global;
use std::fmt::Write;

fn add_part(out: &mut String, part: &str) -> Result<(), NoMemory> {
    let length = part.len();
    match write!(out, "{length}:") {
        Ok(()) => {}
        Err(_) => return Err(NoMemory),
    }
    out.push_str(part)?;
    Ok(())
}

/// The text of bodies.
pub(crate) fn joined(alloc: Global, bodies: &[Body]) -> Result<String, NoMemory> {
    let mut out = String::new(alloc);
    for body in bodies {
        add_part(&mut out, body.lang.as_str())?;
        add_part(&mut out, body.text.as_str())?;
    }
    Ok(out)
}

/// The first part of a text, and the rest.
fn first_part(text: &str) -> Option<(&str, &str)> {
    let (length, rest) = text.split_once(':')?;
    let length = match length.parse::<usize>() {
        Ok(length) => length,
        Err(_) => return None,
    };
    rest.split_at_checked(length)
}

/// The bodies of a text. There are none where it is the text of no bodies.
pub(crate) fn parted(alloc: Global, text: &str) -> Result<Option<Bodies>, NoMemory> {
    let mut bodies = ListOf::new(alloc);
    let mut rest = text;
    for _ in 0..text.len() {
        if rest.is_empty() {
            break;
        }
        let Some((lang, after)) = first_part(rest) else {
            return Ok(None);
        };
        let Some((text, after)) = first_part(after) else {
            return Ok(None);
        };
        bodies.push(Body {
            lang: Text::from_str(alloc, lang)?,
            text: Text::from_str(alloc, text)?,
        })?;
        rest = after;
    }
    Ok(Some(bodies))
}
