//! Texts in a document: hardware addresses and prefixes.

ghost use Rattle.std.specs.Prelude.{◌≡◌, ◌+◌, ◌≤◌, ◌<◌, IfOk, IfSome, IsTrue, map, option_map};
ghost use Rattle.std.specs.List.{list_all};
ghost use Rattle.settings.specs.Lists.{each_of};
ghost use Rattle.settings.specs.Texts.{parts_at, hex_digit, pair_of, mac_of, is_digit, is_plain, is_decimal, value_of, number_to, address_of, prefix_in};

use std::alloc::{AllocError, Global};

/// The maximum number of digits of a decimal number.
const MAX_DIGITS: usize = 3;

/// The hardware address in a text: six pairs of hexadecimal digits, separated by `:`.
pub fn mac(alloc: Global, text: &[u8]) -> Result<Option<[u8; 6]>, AllocError>
    ensures { IfOk result (λ mac. mac ≡ mac_of text.now) }
{
    let parts = parts(alloc, b':', text)?;
    let Some(octets) = pairs(alloc, parts.as_slice())? else {
        return Ok(None);
    };
    Ok(<[u8; 6]>::try_from(octets.as_slice()).ok())
}

/// The parts between the separators.
fn parts<'a>(alloc: Global, sign: u8, text: &'a [u8]) -> Result<Vec<&'a [u8]>, AllocError>
    ensures { IfOk result (λ parts. map (λ part. part.now) parts.items ≡ parts_at sign text.now) }
{
    text.split(|b| *b == sign).collect(alloc)
}

/// The values of pairs of hexadecimal digits.
fn pairs(alloc: Global, parts: &[&[u8]]) -> Result<Option<Vec<u8>>, AllocError>
    ensures { IfOk result (λ octets. option_map (λ v. v.items) octets
        ≡ each_of pair_of (map (λ part. part.now) parts.now)) }
{
    let mut octets = Vec::new(alloc);
    for part in parts {
        match pair(part) {
            Some(octet) => octets.push(octet)?,
            None => return Ok(None),
        }
    }
    Ok(Some(octets))
}

/// The value of two hexadecimal digits.
fn pair(part: &[u8]) -> Option<u8>
    ensures { result ≡ pair_of part.now }
{
    let [high, low] = part else {
        return None;
    };
    let h = hex_digit(*high)?;
    let l = hex_digit(*low)?;
    Some(h * 16 + l)
}

/// The value of a hexadecimal digit of either case.
fn hex_digit(b: u8) -> Option<u8>
    ensures value { result ≡ hex_digit b }
    ensures small { IfSome result (λ n. n < 16) }
{
    match b {
        b'0'..=b'9' => Some(b - b'0'),
        b'A'..=b'F' => Some(b - 55),
        b'a'..=b'f' => Some(b - 87),
        _ => None,
    }
}

/// The address and the depth of a prefix `a.b.c.d/n`.
pub fn prefix(alloc: Global, text: &[u8]) -> Result<Option<(u32, u8)>, AllocError>
    ensures value { IfOk result (λ prefix. prefix ≡ prefix_in text.now) }
{
    let parts = parts(alloc, b'/', text)?;
    let [front, back] = parts.as_slice() else {
        return Ok(None);
    };
    let Some(address) = address(alloc, front)? else {
        return Ok(None);
    };
    match number_to(32, back) {
        Some(depth) if depth >= 1 => Ok(Some((address, depth))),
        _ => Ok(None),
    }
}

/// The address `a.b.c.d`.
fn address(alloc: Global, text: &[u8]) -> Result<Option<u32>, AllocError>
    ensures { IfOk result (λ address. address ≡ address_of text.now) }
{
    let parts = parts(alloc, b'.', text)?;
    let Some(octets) = numbers(alloc, parts.as_slice())? else {
        return Ok(None);
    };
    match <[u8; 4]>::try_from(octets.as_slice()) {
        Ok(octets) => Ok(Some(u32::from_be_bytes(octets))),
        Err(_) => Ok(None),
    }
}

/// The values of decimal numbers up to 255.
fn numbers(alloc: Global, parts: &[&[u8]]) -> Result<Option<Vec<u8>>, AllocError>
    ensures { IfOk result (λ octets. option_map (λ v. v.items) octets
        ≡ each_of (number_to 255) (map (λ part. part.now) parts.now)) }
{
    let mut octets = Vec::new(alloc);
    for part in parts {
        match number_to(255, part) {
            Some(octet) => octets.push(octet)?,
            None => return Ok(None),
        }
    }
    Ok(Some(octets))
}

/// The value of a decimal number up to `most`.
fn number_to(most: u8, part: &[u8]) -> Option<u8>
    ensures value { result ≡ number_to most part.now }
    ensures small { IfSome result (λ n. n ≤ most) }
{
    if !is_decimal(part) {
        return None;
    }
    let value = value(part);
    if value <= u32::from(most) {
        Some(value as u8)
    } else {
        None
    }
}

/// Whether a text is one to three decimal digits, the first not 0 if others follow.
fn is_decimal(part: &[u8]) -> bool
    ensures { result ≡ is_decimal part.now }
{
    let digits = are_digits(part);
    let plain = is_plain(part);
    !part.is_empty() && part.len() <= MAX_DIGITS && digits && plain
}

/// Whether each byte is a decimal digit.
fn are_digits(part: &[u8]) -> bool
    ensures { result ≡ list_all is_digit part.now }
{
    part.iter().all(|b| matches!(*b, b'0'..=b'9'))
}

/// Whether a number has no leading zero.
fn is_plain(part: &[u8]) -> bool
    ensures { result ≡ is_plain part.now }
{
    match part {
        [b'0', _, ..] => false,
        _ => true,
    }
}

/// The value of at most three digits, most significant first.
fn value(digits: &[u8]) -> u32
    requires { IsTrue (is_decimal digits.now) }
    ensures { result ≡ value_of digits.now }
{
    let mut value = 0u32;
    for digit in digits {
        value = value * 10 + u32::from(*digit - b'0');
    }
    value
}
