// Reading the start of a file.
#![tactic(auto)]

ghost use Rattle.std.specs.Prelude.{◌≤◌, IfOk, vec_len};

use std::io::{ErrorKind, Read};
use std::rt::Files;
use std::{fs, io};

// The first bytes of a file, at most so many. A file that is not there is read as empty; one that
// is there and cannot be read is an error.
pub fn read_at_most<R: Files + Alloc>(rt: &R, path: &str, limit: usize) -> io::Result<Vec<u8, R::A>>
    ensures { IfOk result (λ bytes. vec_len bytes ≤ limit) }
{
    let mut bytes = Vec::new(rt.alloc());
    match fs::open(rt, path) {
        Ok(file) => {
            file.take(limit as u64).read_to_end(&mut bytes)?;
        }
        Err(e) if e.kind() == ErrorKind::NotFound => {}
        Err(e) => return Err(e),
    }
    bytes.truncate(limit);
    Ok(bytes)
}

#[cfg(test)]
mod tests {
    use super::read_at_most;
    use std::test::Fail;

    #[test]
    fn reads_no_more_than_asked(rt: HostRuntime) -> Result<(), Fail> {
        assert_eq!(rt; read_at_most(&rt, "/dev/zero", 16)?.len(), 16);
        assert_eq!(rt; read_at_most(&rt, "/dev/zero", 0)?.len(), 0);
        Ok(())
    }

    #[test]
    fn a_missing_file_is_empty(rt: HostRuntime) -> Result<(), Fail> {
        assert_eq!(rt; read_at_most(&rt, "/no/such/file", 16)?.len(), 0);
        Ok(())
    }

    // A folder is there, and cannot be read as a file.
    #[test]
    fn what_cannot_be_read_is_an_error(rt: HostRuntime) {
        assert!(rt; read_at_most(&rt, "/", 16).is_err());
    }
}
