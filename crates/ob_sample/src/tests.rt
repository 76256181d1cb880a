//! The shortest samples, and what a sink counts.

use crate::{CountSink, sample_source};
use ob_base::Sink;
use std::test::Fail;

const THREE: &str = "int f0(int x){int i;int a[4];for(i=0;i<8;i=i+1)a[i]=x+i;return a[3]+0;}\n\
int f1(int x){int i;int a[4];for(i=0;i<8;i=i+1)a[i]=x+i;return a[3]+1;}\n\
int f2(int x){int i;int a[4];for(i=0;i<8;i=i+1)a[i]=x+i;return a[3]+2;}\n\
int main(void){int s;s=0;s=s+f0(s);putchar(48+(s&7));s=s+f1(s);putchar(48+(s&7));s=s+f2(s);putchar(48+(s&7));return 0;}\n";

const LENGTHS: [(u32, usize); 3] = [(1, 136), (3, 336), (1000, 105_706)];

#[test]
fn samples(rt: HostRuntime) -> Result<(), Fail> {
    assert_eq!(&rt; sample_source(rt.alloc(), 3)?.as_slice(), THREE.as_bytes());
    for (n, length) in &LENGTHS {
        assert_eq!(&rt; sample_source(rt.alloc(), *n)?.len(), *length, "at {n}");
    }
    Ok(())
}

#[test]
fn counts(rt: HostRuntime) -> Result<(), Fail> {
    let mut sink = CountSink::new();
    for piece in &["321", "", "\x01\x02"] {
        assert_eq!(&rt; sink.write(piece.as_bytes()), Ok(piece.len()));
    }
    assert_eq!(&rt; (sink.count(), sink.sum()), (5, 153));
    Ok(())
}
