//! Nesting of each construct up to the greatest depth of 256 nodes. Each row has a count, the answer, and pieces of a
//! program between the signs `#`, of which the second, the fourth and so on stand so many times.

use crate::answer::answer;
use std::alloc::{AllocError, Global};
use std::test::Fail;

const ROWS: &str = "\
252 ok:int x;int main(void){#(#x#)#;}
252 258 Unknown:int main(void){#(#x#)#;}
252 ok:int x;int main(void){#- #x;}
252 ok:int x;int main(void){#!#x;}
252 ok:int x;int main(void){#~#x;}
252 258 Unknown:int main(void){#+ #x;}
126 ok:int x;int main(void){#*&#x;}
125 259 Operand:int x;int main(void){#*&#*x;}
252 ok:int x;int main(void){#sizeof #x;}
252 258 Unknown:int main(void){#sizeof #x;}
252 ok:int x;int main(void){#(int)#x;}
251 763 Operand:int*x;int main(void){#(int)#(int)x;}
252 ok:int main(void){#1+#1;}
252 6 Unknown:int main(void){x#+1#;}
252 510 Unknown:int main(void){#1+#x;}
251 11 Operand:int*p;int main(void){p*1#+1#;}
252 ok:int main(void){#1<#1;}
252 ok:int main(void){#1&&#1;}
252 ok:int main(void){#1,#1;}
252 ok:int x;int main(void){#x=#1;}
252 513 Unknown:int x;int main(void){#x=#y;}
251 512 NotPlace:int x;int main(void){#x=#1=2;}
252 ok:int x;int main(void){#x+=#1;}
252 ok:int main(void){#1?1:#1;}
252 ok:int main(void){#1?#1#:1#;}
252 1014 Unknown:int main(void){#1?1:#x;}
252 ok:int f(int a){return a;}int main(void){#f(#1#)#;}
252 521 Assign:int f(int a){return a;}int main(void){#f(#NULL#)#;}
252 ok:int a[1];int main(void){#a[#0#]#;}
252 516 Unknown:int a[1];int main(void){#a[#x#]#;}
252 ok:struct s{struct s*n;}*p;int main(void){p#->n#;}
251 522 Member:struct s{struct s*n;}*p;int main(void){p#->n#.n;}
126 ok:struct s{struct s*n;}*p;int main(void){p#[0].n#;}
252 ok:int x;int main(void){#{#x;#}#}
252 1014 Unknown:int main(void){#{int y;#x;#}#}
252 ok:int x;int main(void){#if(1)#x;}
252 1014 Unknown:int main(void){#if(1)#x;}
252 1518 Unknown:int main(void){#if(1);else #x;}
252 1014 Unknown:int main(void){#while(1)#x;}
252 ok:int main(void){#while(1)#1;}
253 ok:int main(void){#while(1)#break;}
253 1018 Jump:int main(void){#if(1)#break;}
252 258 Unknown:int main(void){#do #x;#while(1);#}
252 ok:int main(void){#do #1;#while(1);#}
252 1266 Unknown:int main(void){#for(;;)#x;}
251 ok:int main(void){#for(int i=0;i<1;)#i++;}
251 3018 Incomplete:int main(void){#for(struct s{int a;};;)#sizeof(struct t);}
254 ok:int a#[1]#=#{#1#}#;int main(void){}
254 1019 Unknown:int a#[1]#=#{#x#}#;int main(void){}
253 1017 Count:int a#[1]#=#{#1,2#}#;int main(void){}
253 3 Count:int a={#{#1#}#};int main(void){}
255 ok:#struct{#int x;#}y;#int main(void){}
255 514 Twice:#struct{#int x;int x;#}y;#int main(void){}
252 ok:#struct{#int y;#}y;#int main(void){y#.y#;}
255 ok:int #*#p;int main(void){}
252 ok:int #*#p;int main(void){#*#p;}
251 260 Operand:int #*#p;int main(void){*#*#p;}
254 ok:int a#[1]#;int main(void){}
253 762 Constant:int a#[1]#[0];int main(void){}
252 ok:int a#[1]#;int main(void){a#[0]#;}
251 1516 Operand:int a#[1]#;int main(void){a#[0]#[0];}
255 ok:int f(int #*#p);int main(void){}
254 ok:int f(int a#[1]#);int main(void){}
252 ok:int main(void){(int #*#)0;}
252 ok:int main(void){sizeof(int #*#);}
251 ok:int main(void){sizeof(int#[1]#);}
126 ok:int x;int*p=#&*#&x;int main(void){}
253 ok:int a[#+ #1];int main(void){}
253 ok:int a[#(#1#)#];int main(void){}
253 256 Unknown:int a[#(#x#)#];int main(void){}
126 ok:int a[#sizeof(char[#1#])#];int main(void){}
126 507 Constant:int a[#sizeof(char[#0#])#];int main(void){}
84 ok:int a[#sizeof(struct{char b[#1#];})#];int main(void){}
";

fn repeat(text: &mut String, piece: &str, count: u32) -> Result<(), AllocError> {
    for _ in 0..count {
        text.push_str(piece)?;
    }
    Ok(())
}

fn nested(alloc: Global, pieces: &str, count: u32) -> Result<String, AllocError> {
    let mut text = String::new(alloc);
    let mut repeated = false;
    for piece in pieces.split('#') {
        repeat(&mut text, piece, if repeated { count } else { 1 })?;
        repeated = !repeated;
    }
    Ok(text)
}

#[test]
fn goes_to_the_greatest_depth(rt: HostRuntime) -> Result<(), Fail> {
    for row in ROWS.lines() {
        let (head, pieces) = row.split_once(':').unwrap_or(("", row));
        let (count, wanted) = head.split_once(' ').unwrap_or(("", head));
        let count = count.parse::<u32>().unwrap_or(0);
        let source = nested(rt.alloc(), pieces, count)?;
        let found = answer(rt.alloc(), source.as_str())?;
        assert_eq!(rt; found.as_str(), wanted, "{row}");
    }
    Ok(())
}
