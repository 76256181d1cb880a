ghost use Rattle.std.specs.Prelude.{◌≡◌, ◌≤◌, ◌++◌, IfOk, OnOk};
ghost use Rattle.ob_sample.specs.Samples.{call, calls, function_line, functions, sample_text};

use itoa::Buffer;
use ob_base::NoMemory;
use std::alloc::Global;

/// Puts the line of function `k` at the end.
fn add_function(source: &mut Vec<u8>, k: u32) -> Result<(), NoMemory>
    ensures { OnOk result (source.new.items ≡ source.old.items ++ function_line k) }
{
    let mut buffer = Buffer::new();
    let number = buffer.format(k).as_bytes();
    source.extend_from_slice(b"int f")?;
    source.extend_from_slice(number)?;
    source.extend_from_slice(b"(int x){int i;int a[4];for(i=0;i<8;i=i+1)a[i]=x+i;return a[3]+")?;
    source.extend_from_slice(number)?;
    source.extend_from_slice(b";}\n")?;
    Ok(())
}

/// Puts the call of function `k` at the end.
fn add_call(source: &mut Vec<u8>, k: u32) -> Result<(), NoMemory>
    ensures { OnOk result (source.new.items ≡ source.old.items ++ call k) }
{
    let mut buffer = Buffer::new();
    source.extend_from_slice(b"s=s+f")?;
    source.extend_from_slice(buffer.format(k).as_bytes())?;
    source.extend_from_slice(b"(s);putchar(48+(s&7));")?;
    Ok(())
}

/// The source of sample `n`, which is 1 to 1000: `n` functions, each on a line of its own, and a `main`
/// that calls them in turn. Each function writes eight numbers into an array of four.
pub fn sample_source(alloc: Global, n: u32) -> Result<Vec<u8>, NoMemory>
    requires { n ≤ 1000 }
    ensures { IfOk result (λ source. source.items ≡ sample_text n) }
{
    let mut source = Vec::new(alloc);
    for k in 0..n {
        add_function(&mut source, k)?;
    }
    source.extend_from_slice(b"int main(void){int s;s=0;")?;
    for k in 0..n {
        add_call(&mut source, k)?;
    }
    source.extend_from_slice(b"return 0;}\n")?;
    Ok(source)
}
