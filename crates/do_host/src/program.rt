//! The program that runs.
use std::alloc::AllocGlobal;
use std::env;
use std::fs::Files;

/// The path of the program that runs. None where the system does not tell it, or memory runs out.
pub fn program_path<R: Files + AllocGlobal>(rt: &R) -> Option<String> {
    match env::current_exe(rt) {
        Ok(path) => Some(path.into_string()),
        Err(_) => None,
    }
}
