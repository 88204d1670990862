// Texts of rows, and their bytes.
use lw_base::NoMemory;
use serde::Deserialize;
use std::alloc::Global;

/// A text, whole or in parts.
#[derive(Drop, Deserialize)]
#[serde(untagged)]
pub enum Text {
    Whole(String),
    Parts(Vec<Part>),
}

/// A part of a text.
#[derive(Drop, Deserialize)]
#[serde(untagged)]
pub enum Part {
    Plain(String),
    Byte(u8),
    Framed(Frame),
    Repeated(Repeated),
}

/// A body, which is put into a frame.
#[derive(Drop, Deserialize)]
#[serde(deny_unknown_fields)]
pub struct Frame {
    pub frame: String,
}

/// A text so many times, each with its number, counted from 1, and this behind it, where something stands there.
#[derive(Drop, Deserialize)]
#[serde(deny_unknown_fields)]
pub struct Repeated {
    pub times: u32,
    pub text: String,
    pub numbered: Option<String>,
}

/// The bytes of a text, which are none where it is left out.
pub fn bytes_of(alloc: Global, text: &Option<Text>) -> Result<Vec<u8>, NoMemory> {
    match text {
        Some(text) => text_bytes(alloc, text),
        None => Ok(Vec::new(alloc)),
    }
}

/// The bytes of a text.
pub fn text_bytes(alloc: Global, text: &Text) -> Result<Vec<u8>, NoMemory> {
    match text {
        Text::Whole(text) => Ok(text.as_str().as_bytes().to_vec(alloc)?),
        Text::Parts(parts) => joined(alloc, parts.as_slice()),
    }
}

fn joined(alloc: Global, parts: &[Part]) -> Result<Vec<u8>, NoMemory> {
    let mut bytes = Vec::new(alloc);
    'parts: for part in parts {
        add_part(alloc, &mut bytes, part)?;
    }
    Ok(bytes)
}

fn add_part(alloc: Global, bytes: &mut Vec<u8>, part: &Part) -> Result<(), NoMemory> {
    match part {
        Part::Plain(text) => add(bytes, text.as_str()),
        Part::Byte(byte) => Ok(bytes.push(*byte)?),
        Part::Framed(framed) => add_frame(alloc, bytes, framed.frame.as_str()),
        Part::Repeated(repeated) => add_repeated(alloc, bytes, repeated),
    }
}

fn add(bytes: &mut Vec<u8>, text: &str) -> Result<(), NoMemory> {
    Ok(bytes.extend_from_slice(text.as_bytes())?)
}

fn add_frame(alloc: Global, bytes: &mut Vec<u8>, body: &str) -> Result<(), NoMemory> {
    let size = body.len();
    let head = format!(in alloc; "Content-Length: {size}\r\n\r\n")?;
    add(bytes, head.as_str())?;
    add(bytes, body)
}

fn add_repeated(alloc: Global, bytes: &mut Vec<u8>, repeated: &Repeated) -> Result<(), NoMemory> {
    'times: for before in 0..repeated.times {
        add(bytes, repeated.text.as_str())?;
        if let Some(behind) = &repeated.numbered {
            let number = u64::from(before) + 1;
            add(bytes, format!(in alloc; "{number}{behind}")?.as_str())?;
        }
    }
    Ok(())
}
