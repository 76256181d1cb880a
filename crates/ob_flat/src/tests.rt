ghost use Rattle.std.specs.Prelude.{◌≡◌};
ghost use Rattle.ob_words.specs.Fields.{IsFieldSize};
ghost use Rattle.ob_flat.specs.Memory.{IsIn};

use crate::Flat;
use std::process::Abort;
use std::test::Fail;

// Puts a number at an address, and reads it.
fn put_and_get(rt: &impl Abort, f: &mut Flat, address: u64, size: u32, w: u64, read: u64)
    requires size { IsFieldSize size }
    requires inside { IsIn f.old address size }
    ensures statics { f.new.statics ≡ f.old.statics }
    ensures stack { f.new.stack ≡ f.old.stack }
    ensures heap { f.new.heap ≡ f.old.heap }
{
    f.put(address, size, w);
    assert_eq!(rt; f.get(address, size), read);
}

// Fields at the first and the last bytes of each range, and what stands beside them.
#[test]
fn fields_at_edges(rt: HostRuntime) -> Result<(), Fail> {
    let mut f = Flat::new(rt.alloc(), 24, 16, 40)?;
    put_and_get(
        &rt,
        &mut f,
        4096,
        8,
        0x1122_3344_5566_7788,
        0x1122_3344_5566_7788,
    );
    put_and_get(&rt, &mut f, 4119, 1, 0x1ff, 0xff);
    put_and_get(&rt, &mut f, 0x100_0000, 2, 0x12345, 0x2345);
    put_and_get(&rt, &mut f, 0x100_000c, 4, 0x8765_4321, 0x8765_4321);
    put_and_get(&rt, &mut f, 0x200_0000, 1, 0xab, 0xab);
    put_and_get(&rt, &mut f, 0x200_0020, 8, u64::MAX, u64::MAX);
    assert_eq!(rt; f.get(4096, 1), 0x88);
    assert_eq!(rt; f.get(4112, 8), 0xff00_0000_0000_0000);
    assert_eq!(rt; f.get(0x100_0000, 8), 0x2345);
    assert_eq!(rt; f.get(0x100_0008, 8), 0x8765_4321_0000_0000);
    assert_eq!(rt; f.get(0x200_0000, 8), 0xab);
    assert_eq!(rt; f.get(0x200_0018, 8), 0);
    Ok(())
}

// The largest sizes have memory, and their last bytes are there.
#[test]
fn largest_sizes(rt: HostRuntime) -> Result<(), Fail> {
    let mut f = Flat::new(rt.alloc(), 4_194_304, 1_048_576, 67_108_864)?;
    put_and_get(&rt, &mut f, 4096 + 4_194_303, 1, 1, 1);
    put_and_get(&rt, &mut f, 0x100_0000 + 1_048_575, 1, 2, 2);
    put_and_get(&rt, &mut f, 0x200_0000 + 67_108_863, 1, 3, 3);
    assert_eq!(rt; f.get(4096 + 4_194_303, 1), 1);
    assert_eq!(rt; f.get(0x100_0000, 8), 0);
    assert_eq!(rt; f.get(0x200_0000, 8), 0);
    Ok(())
}

// A mark is its own granule's; zero bytes and a clear memory have none.
#[test]
fn marks(rt: HostRuntime) -> Result<(), Fail> {
    let mut f = Flat::new(rt.alloc(), 24, 16, 40)?;
    assert!(rt; !f.is_pointer(4104));
    f.mark(4104, true);
    f.mark(0x100_000f, true);
    assert!(rt; f.is_pointer(4104) && f.is_pointer(4111));
    assert!(rt; !f.is_pointer(4103) && !f.is_pointer(4112));
    assert!(rt; f.is_pointer(0x100_0008) && !f.is_pointer(0x100_0000));
    f.zero(4104, 8);
    assert!(rt; !f.is_pointer(4104) && f.is_pointer(0x100_0008));
    f.clear();
    assert!(rt; !f.is_pointer(0x100_0008));
    Ok(())
}
