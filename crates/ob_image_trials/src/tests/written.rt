use crate::tests::bytes::{FAR, NAMED, SMALL};
use crate::tests::{place, second};
use ob_code::verify;
use ob_image::{read_image, write_image};
use std::alloc::Global;
use std::test::Fail;

// The bytes as they are read, verified and written again; none where a step refuses.
fn again(alloc: Global, bytes: &[u8]) -> Option<Vec<u8>> {
    let image = read_image(alloc, bytes).ok()?;
    let verified = verify(image).ok()?;
    write_image(alloc, &verified).ok()
}

// An image of version 1, and how long it is in version 2: eight bytes longer, for the profile and for the
// count of names, which is 0.
const ROWS: [(&[u8], usize); 2] = [(&SMALL, 176), (&FAR, 304)];

#[test]
fn version_1_is_written_in_version_2(rt: HostRuntime) -> Result<(), Fail> {
    for (first, length) in &ROWS {
        let want = second(rt.alloc(), first, &[0, 0, 0, 0])?;
        let got = again(rt.alloc(), first).ok_or("the image is sound")?;
        assert_eq!(rt; (got.as_slice(), got.len()), (want.as_slice(), *length));
    }
    Ok(())
}

// Images in version 2: of profile 2 with a variable's name, of profile 1 with a static object's.
#[test]
fn version_2_is_written_as_it_was(rt: HostRuntime) -> Result<(), Fail> {
    for bytes in &NAMED {
        let got = again(rt.alloc(), bytes).ok_or("the image is sound")?;
        assert_eq!(rt; got.as_slice(), *bytes);
    }
    Ok(())
}

#[test]
fn front_parts_are_refused_at_their_length(rt: HostRuntime) {
    let images: [&[u8]; 4] = [&SMALL, &FAR, NAMED[0], NAMED[1]];
    for image in &images {
        let wrong = (0..image.len()).find(|len| place(rt.alloc(), &image[..*len])
            != Some(ob_image::ImageFault::At(*len as u64)));
        assert_eq!(rt; wrong, None);
    }
}
