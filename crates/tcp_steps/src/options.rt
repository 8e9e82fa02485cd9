//! TCP options as one word.

use crate::words::NOTHING;
use std::alloc::{AllocError, Global};
use wire_tcp_options::{SACK_BLOCKS, TcpOptionSummary};

/// The options that a word tells. Parts that are unknown, and blocks after the fourth one, are ignored.
pub fn options_of(word: &str) -> TcpOptionSummary {
    let mut options = TcpOptionSummary::default();
    let mut blocks = 0;
    for part in word.split(',') {
        let (name, value) = part.split_once('=').unwrap_or((part, ""));
        match name {
            "mss" => options.max_segment_size = Some(value.parse().unwrap_or(0)),
            "ws" => options.window_scale = Some(value.parse().unwrap_or(0)),
            "sackok" => options.sack_permitted = true,
            "ts" => options.timestamp = Some(pair(value, ':')),
            "sack" => {
                if blocks < SACK_BLOCKS {
                    options.sack_ranges[blocks] = Some(pair(value, '-'));
                    blocks += 1;
                }
            }
            _ => {}
        }
    }
    options
}

// Two numbers with this sign between them.
fn pair(value: &str, sign: char) -> (u32, u32) {
    let (first, second) = value.split_once(sign).unwrap_or((value, ""));
    (first.parse().unwrap_or(0), second.parse().unwrap_or(0))
}

/// Options as a word.
pub fn options_text(alloc: Global, options: &TcpOptionSummary) -> Result<String, AllocError> {
    let mut text = String::new(alloc);
    if let Some(mss) = options.max_segment_size {
        add(&mut text, format!(in alloc; "mss={mss}")?.as_str())?;
    }
    if let Some(scale) = options.window_scale {
        add(&mut text, format!(in alloc; "ws={scale}")?.as_str())?;
    }
    if options.sack_permitted {
        add(&mut text, "sackok")?;
    }
    if let Some((tsval, tsecr)) = options.timestamp {
        add(&mut text, format!(in alloc; "ts={tsval}:{tsecr}")?.as_str())?;
    }
    for (first, end) in options.sack_ranges.iter().flatten() {
        add(&mut text, format!(in alloc; "sack={first}-{end}")?.as_str())?;
    }
    if text.is_empty() {
        text.push_str(NOTHING)?;
    }
    Ok(text)
}

// One more part.
fn add(text: &mut String, part: &str) -> Result<(), AllocError> {
    if !text.is_empty() {
        text.push_str(",")?;
    }
    text.push_str(part)
}
