// Images in files.
use admission::check::MAX_BYTES;
use std::fs::File;
use std::io;
use std::io::Read;

pub(crate) fn read_image(rt: &HostRuntime, path: &str) -> io::Result<Vec<u8>> {
    let mut bytes = Vec::new(rt.alloc());
    let mut part = File::open(rt, path)?.take(MAX_BYTES as u64 + 1);
    part.read_to_end(&mut bytes)?;
    Ok(bytes)
}
