use config_json::{ApiFault, config_of_json, config_to_json, has_texts};
use std::alloc::{AllocError, Global};
use stream_fold::Config;

/// A configuration as it is written, or that a text of it is no UTF-8.
fn written(alloc: Global, config: &Config) -> Result<Vec<u8>, AllocError> {
    if !has_texts(config) {
        return Vec::from_slice(alloc, b"no text");
    }
    match config_to_json(alloc, config) {
        Ok(text) => Ok(text.into_vec()),
        Err(_) => Err(AllocError),
    }
}

/// A refusal in words.
fn refused(alloc: Global, fault: &ApiFault) -> Result<Vec<u8>, AllocError> {
    let mut text = Vec::new(alloc);
    match fault {
        ApiFault::BadRequest => text.extend_from_slice(b"bad request")?,
        ApiFault::BadConfig { member } => {
            text.extend_from_slice(b"bad ")?;
            text.extend_from_slice(member.as_slice())?;
        }
        ApiFault::NotForClients => text.extend_from_slice(b"not for clients")?,
        ApiFault::NotApi => text.extend_from_slice(b"not the API's")?,
        ApiFault::NoMemory => text.extend_from_slice(b"no memory")?,
    }
    Ok(text)
}

/// What a text is read as, written again; or why it isn't read.
pub fn told(alloc: Global, text: &[u8]) -> Result<Vec<u8>, AllocError> {
    match config_of_json(alloc, text) {
        Ok(config) => written(alloc, &config),
        Err(fault) => refused(alloc, &fault),
    }
}
