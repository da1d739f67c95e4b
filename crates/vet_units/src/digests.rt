//! Digests of what was read.

ghost use Rattle.std.specs.Prelude.{◌≡◌, ◌++◌, IfOk, string_bytes};
ghost use Rattle.vet_units.specs.Digests.{bytes_in, digest_in, digest_text, facts_digest};
ghost use Rattle.library_facts.specs.LibraryText.{library_text};

use folders::ReadFile;
use library_facts::library_text;
use sha2::{Digest, Sha256};
use std::alloc::{AllocError, Global};

/// The digest of these bytes by SHA-256, in hexadecimal digits.
///
/// # Errors
///
/// Memory was refused.
pub fn digest_text(alloc: Global, bytes: &[u8]) -> Result<String, AllocError>
    ensures { IfOk result (λ text. string_bytes text ≡ digest_text bytes.now) }
{
    let digest = Sha256::digest(bytes);
    hex::encode(alloc, digest)
}

/// The digest of the file, or an empty text, where none was read.
fn digest_in(alloc: Global, file: &Option<ReadFile<'_>>) -> Result<String, AllocError>
    ensures { IfOk result (λ text. string_bytes text ≡ digest_in file.now) }
{
    match file {
        Some(file) => digest_text(alloc, file.bytes()),
        None => Ok(String::new(alloc)),
    }
}

/// The bytes of the file, where one was read.
fn bytes_in<'f>(file: &'f Option<ReadFile<'_>>) -> &'f [u8]
    ensures { result.now ≡ bytes_in file.now }
{
    match file {
        Some(file) => file.bytes(),
        None => &[],
    }
}

/// What is known of Go's library, and behind it the bytes of the file.
fn with_library(alloc: Global, file: &Option<ReadFile<'_>>) -> Result<Vec<u8>, AllocError>
    ensures { IfOk result (λ bytes. bytes.items ≡ library_text ++ bytes_in file.now) }
{
    let mut bytes = Vec::new(alloc);
    bytes.extend_from_slice(library_text().as_bytes())?;
    bytes.extend_from_slice(bytes_in(file))?;
    Ok(bytes)
}

/// The digest of the facts beside which a unit is judged: of the file that declares some, and of what is known of Go's
/// library, where that is known. It is empty where there are none.
///
/// # Errors
///
/// Memory was refused.
pub fn facts_digest(
    alloc: Global,
    knows_library: bool,
    file: &Option<ReadFile<'_>>,
) -> Result<String, AllocError>
    ensures { IfOk result (λ text. string_bytes text ≡ facts_digest knows_library file.now) }
{
    if !knows_library {
        return digest_in(alloc, file);
    }
    let bytes = with_library(alloc, file)?;
    digest_text(alloc, &bytes)
}
