// The bytes that a line of a row tells.
use std::alloc::Global;
use std::error::Error;
use std::num::ParseIntError;

/// A line is not taken: it tells nothing, or there is no memory for what it tells.
#[derive(Debug, Drop)]
pub(crate) struct Refused;

impl<E: Error> From<E> for Refused {
    fn from(_error: E) -> Refused {
        Refused
    }
}

pub(crate) type Taken = Result<(), Refused>;

/// Bytes that rows share by a name.
#[derive(Drop)]
pub(crate) struct Shared {
    pub(crate) name: String,
    pub(crate) bytes: Vec<u8>,
}

/// The record types and the types of tags, and their numbers.
const CODES: [(&str, u64); 23] = [
    ("PicoHarpT2", 0x0001_0203),
    ("PicoHarpT3", 0x0001_0303),
    ("HydraHarpT2", 0x0001_0204),
    ("HydraHarpT3", 0x0001_0304),
    ("HydraHarp2T2", 0x0101_0204),
    ("HydraHarp2T3", 0x0101_0304),
    ("TimeHarp260NT2", 0x0001_0205),
    ("TimeHarp260NT3", 0x0001_0305),
    ("TimeHarp260PT2", 0x0001_0206),
    ("TimeHarp260PT3", 0x0001_0306),
    ("MultiHarpT2", 0x0001_0207),
    ("MultiHarpT3", 0x0001_0307),
    ("tyEmpty8", 0xFFFF_0008),
    ("tyBool8", 0x0000_0008),
    ("tyInt8", 0x1000_0008),
    ("tyBitSet64", 0x1100_0008),
    ("tyColor8", 0x1200_0008),
    ("tyFloat8", 0x2000_0008),
    ("tyTDateTime", 0x2100_0008),
    ("tyFloat8Array", 0x2001_FFFF),
    ("tyAnsiString", 0x4001_FFFF),
    ("tyWideString", 0x4002_FFFF),
    ("tyBinaryBlob", 0xFFFF_FFFF),
];

/// The number of a type, told by its name or in hexadecimal digits.
fn code_of(word: &str) -> Result<u64, ParseIntError> {
    for (name, code) in CODES {
        if name == word {
            return Ok(code);
        }
    }
    u64::from_str_radix(word, 16)
}

/// What stands before the first space of a line, and after it.
pub(crate) fn halves(line: &str) -> (&str, &str) {
    line.split_once(' ').unwrap_or((line, ""))
}

/// The words of a line. One between quotes may be empty or have spaces.
pub(crate) fn words_in(alloc: Global, line: &str) -> Result<Vec<String>, Refused> {
    let mut words = Vec::new(alloc);
    let mut quoted = false;
    for part in line.split('"') {
        if quoted {
            words.push(String::from_str(alloc, part)?)?;
        } else {
            for word in part.split_whitespace() {
                words.push(String::from_str(alloc, word)?)?;
            }
        }
        quoted = !quoted;
    }
    if quoted { Ok(words) } else { Err(Refused) }
}

/// Appends a text, in which each `\n` is the end of a line.
pub(crate) fn put_begun(into: &mut Vec<u8>, text: &str) -> Taken {
    let text = text.replace(*into.allocator(), "\\n", "\n")?;
    into.extend_from_slice(text.as_bytes())?;
    Ok(())
}

/// Appends a text and the end of its line, which a `\` after the text leaves out.
pub(crate) fn put_text(into: &mut Vec<u8>, text: &str) -> Taken {
    match text.strip_suffix('\\') {
        Some(begun) => put_begun(into, begun),
        None => {
            put_begun(into, text)?;
            into.extend_from_slice(b"\n")?;
            Ok(())
        }
    }
}

/// Appends words of 32 bits, each with its lowest byte first.
fn put_words(into: &mut Vec<u8>, words: &str) -> Taken {
    for word in words.split_whitespace() {
        let word = u32::from_str_radix(word, 16)?;
        into.extend_from_slice(word.to_le_bytes().as_slice())?;
    }
    Ok(())
}

fn put_bytes(into: &mut Vec<u8>, bytes: &str) -> Taken {
    for byte in bytes.split_whitespace() {
        into.extend_from_slice(&[u8::from_str_radix(byte, 16)?])?;
    }
    Ok(())
}

/// Appends the 48 bytes of a tag.
fn put_tag(into: &mut Vec<u8>, ident: &str, index: u32, code: u64, value: u64) -> Taken {
    let code = u32::try_from(code)?;
    if ident.len() > 32 {
        return Err(Refused);
    }
    into.extend_from_slice(ident.as_bytes())?;
    for _ in ident.len()..32 {
        into.extend_from_slice(b"\0")?;
    }
    into.extend_from_slice(index.to_le_bytes().as_slice())?;
    into.extend_from_slice(code.to_le_bytes().as_slice())?;
    into.extend_from_slice(value.to_le_bytes().as_slice())?;
    Ok(())
}

/// Appends the tag of an ident, an index, a type and a value.
fn put_told_tag(into: &mut Vec<u8>, tag: &str) -> Taken {
    let words = words_in(*into.allocator(), tag)?;
    let [ident, index, code, value] = words.as_slice() else {
        return Err(Refused);
    };
    let index = match index.as_str() {
        "-1" => u32::MAX,
        index => index.parse::<u32>()?,
    };
    let value = u64::from_str_radix(value.as_str(), 16)?;
    put_tag(into, ident.as_str(), index, code_of(code.as_str())?, value)
}

const PREAMBLE: &[u8] = b"PQTTTR\0\01.0.00\0\0";

/// Appends the shortest file of a record type, with words after its header of 112 bytes.
fn put_short(into: &mut Vec<u8>, file: &str) -> Taken {
    let (record_type, words) = halves(file);
    let code = code_of(record_type)?;
    into.extend_from_slice(PREAMBLE)?;
    put_tag(
        into,
        "TTResultFormat_TTTRRecType",
        u32::MAX,
        0x1000_0008,
        code,
    )?;
    put_tag(into, "Header_End", u32::MAX, 0xFFFF_0008, 0)?;
    put_words(into, words)
}

/// What a report tells first, each in a line.
const SUMMARY: &str =
    "type announced global resolution records photons markers wraps reserved late first last";

/// Appends the lines of a report that come before its tables, of their values.
fn put_summary(into: &mut Vec<u8>, values: &str) -> Taken {
    for (key, value) in SUMMARY.split(' ').zip(values.split(' ')) {
        let line = format!(in *into.allocator(); "{key} {value}\n")?;
        into.extend_from_slice(line.as_bytes())?;
    }
    Ok(())
}

/// Appends the bytes of a name, which begins with `the`.
fn put_shared(into: &mut Vec<u8>, shared: &[Shared], name: &str) -> Taken {
    for one in shared {
        if one.name.as_str() == name {
            into.extend_from_slice(one.bytes.as_slice())?;
            return Ok(());
        }
    }
    Err(Refused)
}

/// Appends what a kind of bytes makes.
fn put_once(into: &mut Vec<u8>, shared: &[Shared], made: &str) -> Taken {
    let (kind, rest) = halves(made);
    match kind {
        "the" => put_shared(into, shared, made),
        "bytes" => put_bytes(into, rest),
        "words" => put_words(into, rest),
        "tag" => put_told_tag(into, rest),
        "short" => put_short(into, rest),
        "text" => put_text(into, rest),
        "summary" => put_summary(into, rest),
        "preamble" => Ok(into.extend_from_slice(PREAMBLE)?),
        _ => Err(Refused),
    }
}

/// Appends so many times what a kind of bytes makes.
fn put_repeated(into: &mut Vec<u8>, shared: &[Shared], repeated: &str) -> Taken {
    let (count, made) = halves(repeated);
    let mut once = Vec::new(*into.allocator());
    put_once(&mut once, shared, made)?;
    for _ in 0..count.parse::<u64>()? {
        into.extend_from_slice(once.as_slice())?;
    }
    Ok(())
}

/// Keeps the first bytes, so many as there must be at least.
fn keep_first(bytes: &mut Vec<u8>, count: &str) -> Taken {
    let count = count.parse::<usize>()?;
    if count > bytes.len() {
        return Err(Refused);
    }
    bytes.truncate(count);
    Ok(())
}

/// Appends what a kind of bytes makes, once or repeated, or keeps the first bytes.
pub(crate) fn put_made(into: &mut Vec<u8>, shared: &[Shared], made: &str) -> Taken {
    match halves(made) {
        ("repeat", repeated) => put_repeated(into, shared, repeated),
        ("first", count) => keep_first(into, count),
        _ => put_once(into, shared, made),
    }
}

/// Appends what a line tells: a text after its key, and after a key that ends in `:` what a kind of bytes makes.
pub(crate) fn put_line(into: &mut Vec<u8>, shared: &[Shared], line: &str) -> Taken {
    let (key, rest) = halves(line);
    if key.ends_with(':') {
        put_made(into, shared, rest)
    } else {
        put_text(into, rest)
    }
}
