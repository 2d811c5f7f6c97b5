use crate::tests::{bad, good};
use std::alloc::Global;
use std::test::Fail;

// So many small letters, with no line end.
fn letters(alloc: Global, count: usize) -> Result<Vec<u8>, Fail> {
    Ok(vec![in alloc; b'a'; count]?)
}

// Every point of four coordinates over eight grades, each answered by itself: 4,097 lines of rows.
fn all_rows(alloc: Global) -> Result<Vec<u8>, Fail> {
    let mut file = Vec::new(alloc);
    file.extend_from_slice(b"bodies 2\nrows 4097\ncalls 1\ngrades ABCDEFGH 4\n")?;
    for a in b"ABCDEFGH" {
        for b in b"ABCDEFGH" {
            for c in b"ABCDEFGH" {
                for d in b"ABCDEFGH" {
                    file.extend_from_slice(&[
                        b'r', b'o', b'w', b' ', *a, *b, *c, *d, b' ', *a, *b, *c, *d, b'\n',
                    ])?;
                }
            }
        }
    }
    file.extend_from_slice(b"allow 0\n")?;
    Ok(file)
}

#[test]
fn a_file_has_65536_bytes(rt: HostRuntime) -> Result<(), Fail> {
    let most = letters(rt.alloc(), 65_536)?;
    bad(&rt, rt.alloc(), &most, 20, 1)?;
    let over = letters(rt.alloc(), 65_537)?;
    bad(&rt, rt.alloc(), &over, 27, 0)
}

#[test]
fn a_table_has_4097_lines(rt: HostRuntime) -> Result<(), Fail> {
    let file = all_rows(rt.alloc())?;
    good(rt.alloc(), &file)
}
