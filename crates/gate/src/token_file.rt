//! The file with the token that lets clients in at a port.
ghost use Rattle.std.specs.Prelude.{◌≢◌, Err};

use crate::failure::Failure;
use serving::LINE;
use std::fs::{self, File, Files, Metadata};
use std::io::{ErrorKind, Read, Write};
use std::os::unix::fs::{MetadataExt, OpenOptionsExt};

/// The number of hexadecimal digits of a token.
const DIGITS: usize = 64;

/// The number of bytes of a token.
const BYTES: usize = DIGITS / 2;

/// The file whose bytes are random.
const RANDOM: &str = "/dev/urandom";

/// The line before the digits of a token, and after them.
const BEFORE: &[u8] = b"{\"token\":\"";

const AFTER: &[u8] = b"\"}";

/// The line that lets a client in: it has the token of this file. If there is no such file, one with a
/// new token is created, which only the user may read.
///
/// # Errors
///
/// The file can't be read or created, or is no token file: it has something else than a token, others
/// may use it, or its name is a link.
pub fn token_line<'a, T: Files<File = File>>(
    rt: &T,
    name: &'a str,
) -> Result<[u8; LINE], Failure<'a>>
    ensures { result ≢ Err Failure.Record }
{
    let token = match fs::symlink_metadata(rt, name) {
        Ok(named) => read_token(rt, name, &named)?,
        Err(error) if error.kind() == ErrorKind::NotFound => create_token(rt, name)?,
        Err(_) => return Err(Failure::CannotRead(name)),
    };
    Ok(line_of(&token))
}

/// The line with this token.
fn line_of(token: &[u8; DIGITS]) -> [u8; LINE] {
    let mut line = [b' '; LINE];
    line[..BEFORE.len()].copy_from_slice(BEFORE);
    line[BEFORE.len()..BEFORE.len() + DIGITS].copy_from_slice(token);
    line[BEFORE.len() + DIGITS..].copy_from_slice(AFTER);
    line
}

/// The token of a file that is there.
fn read_token<'a, T: Files<File = File>>(
    rt: &T,
    name: &'a str,
    named: &Metadata,
) -> Result<[u8; DIGITS], Failure<'a>>
    ensures { result ≢ Err Failure.Record }
{
    let length = named.len();
    let is_ours = named.is_file() && named.mode() & 0o077 == 0;
    if !is_ours || length < DIGITS as u64 || length > DIGITS as u64 + 1 {
        return Err(Failure::NoToken(name));
    }
    let Ok(file) = fs::open(rt, name) else {
        return Err(Failure::CannotRead(name));
    };
    match file.metadata() {
        Ok(opened) if opened.dev() == named.dev() && opened.ino() == named.ino() => {}
        Ok(_) => return Err(Failure::NoToken(name)),
        Err(_) => return Err(Failure::CannotRead(name)),
    }
    let mut token = [0; DIGITS];
    let mut file = file;
    if file.read_exact(&mut token).is_err() {
        return Err(Failure::CannotRead(name));
    }
    let is_digits = token
        .iter()
        .all(|byte| matches!(*byte, b'0'..=b'9' | b'a'..=b'f'));
    let mut end = *b"\n";
    if !is_digits || file.read(&mut end).is_err() || end != *b"\n" {
        return Err(Failure::NoToken(name));
    }
    Ok(token)
}

/// A new token, and a file of it.
fn create_token<'a, T: Files<File = File>>(
    rt: &T,
    name: &'a str,
) -> Result<[u8; DIGITS], Failure<'a>>
    ensures { result ≢ Err Failure.Record }
{
    let token = new_token(rt)?;
    let mut options = File::options();
    options.write(true).create_new(true).mode(0o600);
    let Ok(file) = options.open(rt, name) else {
        return Err(Failure::CannotCreate(name));
    };
    let mut file = file;
    if file.write_all(&token).is_err() || file.write_all(b"\n").is_err() {
        let _ = fs::remove_file(rt, name);
        return Err(Failure::CannotCreate(name));
    }
    Ok(token)
}

/// A token that nobody can guess.
fn new_token<'a, T: Files<File = File>>(rt: &T) -> Result<[u8; DIGITS], Failure<'a>>
    ensures { result ≢ Err Failure.Record }
{
    let mut bytes = [0; BYTES];
    match fs::open(rt, RANDOM) {
        Ok(file) => {
            let mut file = file;
            if file.read_exact(&mut bytes).is_err() {
                return Err(Failure::CannotRead(RANDOM));
            }
        }
        Err(_) => return Err(Failure::CannotRead(RANDOM)),
    }
    let mut token = [0; DIGITS];
    match hex::encode_to_slice(&bytes[..], &mut token) {
        Ok(()) => Ok(token),
        Err(_) => Err(Failure::CannotRead(RANDOM)),
    }
}
