//! The bytes of files: of texts by lines, and of capture files by their frames.

use crate::headers::digits_of;
use crate::texts::{RunText, Unread, number_of, said_by};
use std::alloc::{AllocError, Global};

// The last byte of the destination of a frame, where nothing else is said.
const DESTINATION: &str = "2";

// The begin of a frame from 00:00:00:00:00:01, up to the last byte of its destination, and what comes then.
const TO: &str = "0000000000";

const FROM_1: &str = "000000000001.unknown";

/// Adds lines, which have `|` between them: each with its line feed.
pub fn push_text(file: &mut Vec<u8>, lines: &str) -> Result<(), AllocError> {
    for byte in lines.as_bytes() {
        file.push(if *byte == b'|' { b'\n' } else { *byte })?;
    }
    file.push(b'\n')?;
    Ok(())
}

/// The bytes of a text: each line with its line feed.
pub fn text_of(alloc: Global, lines: &str) -> Result<Vec<u8>, AllocError> {
    let mut text = Vec::new(alloc);
    if !lines.is_empty() {
        push_text(&mut text, lines)?;
    }
    Ok(text)
}

/// The bytes of the text that a run's lines of a word make.
pub fn lines_of(alloc: Global, text: RunText<'_>, word: &str) -> Result<Vec<u8>, AllocError> {
    let mut lines = Vec::new(alloc);
    for line in text.text_with(word).lines() {
        if let Some(said) = said_by(line, word) {
            push_text(&mut lines, said)?;
        }
    }
    Ok(lines)
}

fn digit(character: u8) -> Option<u8> {
    match character {
        b'0'..=b'9' => Some(character - b'0'),
        b'a'..=b'f' => Some(character - b'a' + 10),
        _ => None,
    }
}

fn byte_of(high: u8, low: u8) -> Result<u8, Unread> {
    match (digit(high), digit(low)) {
        (Some(high), Some(low)) => Ok((high << 4) | low),
        _ => Err(Unread::Malformed),
    }
}

// Adds the bytes of hexadecimal digits.
fn push_digits(file: &mut Vec<u8>, digits: &str) -> Result<(), Unread> {
    if digits.len() % 2 != 0 {
        return Err(Unread::Malformed);
    }
    for pair in digits.as_bytes().chunks_exact(2) {
        file.extend_from_slice(&[byte_of(pair[0], pair[1])?])?;
    }
    Ok(())
}

/// Adds headers, each by its name or in hexadecimal digits, with a dot between them.
pub fn push_headers(file: &mut Vec<u8>, headers: &str) -> Result<(), Unread> {
    for header in headers.split('.') {
        push_digits(file, digits_of(header).unwrap_or(header))?;
    }
    Ok(())
}

// The byte that a decimal number is.
fn small_of(digits: &str) -> Result<u8, Unread> {
    match digits.parse::<u8>() {
        Ok(number) => Ok(number),
        Err(_) => Err(Unread::Malformed),
    }
}

// Adds a frame of 60 bytes to the address of Ethernet that ends so.
fn push_plain(frame: &mut Vec<u8>, destination: &str) -> Result<(), Unread> {
    push_digits(frame, TO)?;
    frame.extend_from_slice(&[small_of(destination)?])?;
    push_headers(frame, FROM_1)
}

// Adds what a frame is, and answers its second.
fn push_frame(frame: &mut Vec<u8>, item: &str) -> Result<u8, Unread> {
    if let Some((second, headers)) = item.split_once(':') {
        push_headers(frame, headers)?;
        return small_of(second);
    }
    let (second, destination) = item.split_once('>').unwrap_or((item, DESTINATION));
    push_plain(frame, destination)?;
    small_of(second)
}

// Adds the record of a frame at a second.
fn push_record(file: &mut Vec<u8>, second: u8, frame: &[u8]) -> Result<(), AllocError> {
    let len = u32::try_from(frame.len()).unwrap_or(0).to_le_bytes();
    file.extend_from_slice(&[second, 0, 0, 0, 0, 0, 0, 0])?;
    file.extend_from_slice(&len)?;
    file.extend_from_slice(&len)?;
    file.extend_from_slice(frame)
}

// Adds a frame, so many times.
fn push_frames(alloc: Global, file: &mut Vec<u8>, item: &str) -> Result<(), Unread> {
    let (item, times) = item.split_once('*').unwrap_or((item, "1"));
    let times = number_of(times)?;
    let mut frame = Vec::new(alloc);
    let second = push_frame(&mut frame, item)?;
    for _ in 0..times {
        push_record(file, second, &frame)?;
    }
    Ok(())
}

// Takes so many bytes off.
fn cut(file: &mut Vec<u8>, bytes: &str) -> Result<(), Unread> {
    let bytes = number_of(bytes)? as usize;
    match file.len().checked_sub(bytes) {
        Some(len) => {
            file.truncate(len);
            Ok(())
        }
        None => Err(Unread::Malformed),
    }
}

fn put_at(file: &mut Vec<u8>, at: usize, byte: u8) -> Result<(), Unread> {
    if at >= file.len() {
        return Err(Unread::Malformed);
    }
    file[at] = byte;
    Ok(())
}

// Puts bytes in place of those at an offset.
fn put_bytes(alloc: Global, file: &mut Vec<u8>, change: &str) -> Result<(), Unread> {
    let Some((offset, digits)) = change.split_once(':') else {
        return Err(Unread::Malformed);
    };
    let offset = number_of(offset)? as usize;
    let mut bytes = Vec::new(alloc);
    push_digits(&mut bytes, digits)?;
    for (place, byte) in bytes.iter().enumerate() {
        put_at(file, offset.saturating_add(place), *byte)?;
    }
    Ok(())
}

// Makes of a file what an item says.
fn add_item(alloc: Global, file: &mut Vec<u8>, item: &str) -> Result<(), Unread> {
    if let Some(bytes) = item.strip_prefix('-') {
        return cut(file, bytes);
    }
    if let Some(bytes) = item.strip_prefix('@') {
        return put_bytes(alloc, file, bytes);
    }
    if let Some(headers) = item.strip_prefix('=') {
        file.clear();
        return push_headers(file, headers);
    }
    push_frames(alloc, file, item)
}

/// The bytes of a capture file, whose items are apart by spaces.
pub fn capture_of(alloc: Global, items: &str) -> Result<Vec<u8>, Unread> {
    let mut file = Vec::new(alloc);
    push_headers(&mut file, "micros")?;
    for item in items.split_ascii_whitespace() {
        add_item(alloc, &mut file, item)?;
    }
    Ok(file)
}
