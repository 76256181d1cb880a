//! Loops, jumps, and the order of a statement's parts.

use super::{agree, first_wins};
use std::test::Fail;

const ROWS: &str = "\
6 Jump:int main(void){break;}
6 Jump:int main(void){continue;}
10 Jump:int main(void){if(1)break;}
12 Jump:int main(void){if(1);else continue;}
8 Jump:int main(void){{{break;}}}
ok:int main(void){while(1)break;do continue;while(0);for(;;){if(1)break;else continue;}}
ok:int main(void){while(1){for(;;)break;continue;}}
11 Jump:int main(void){while(0);break;}
12 Jump:int main(void){for(;;);continue;}
13 Jump:int main(void){do;while(0);break;}
22 Jump:int f(void){while(1)break;return 0;}int main(void){break;}
ok:int main(void){int x=1;char*p=0;if(x);if(p);while(p)break;do;while(p);for(;p;);for(;\"a\";)break;for(;;)break;int a[2];if(a);}
14 NotFunction:int f(void);int main(void){while(f);}
8 Unknown:int main(void){if(x)y;}
10 Unknown:int main(void){if(1)x;else y;}
12 Unknown:int main(void){if(1);else x;}
8 Unknown:int main(void){while(x)y;}
10 Unknown:int main(void){while(1)y;}
7 Unknown:int main(void){do x;while(y);}
10 Unknown:int main(void){do;while(y);}
8 Unknown:int main(void){for(x;y;z)w;}
9 Unknown:int main(void){for(;y;z)w;}
10 Unknown:int main(void){for(;;z)w;}
11 Unknown:int main(void){for(;;)w;}
11 Unknown:int main(void){for(int i=x;i;i++);}
11 Unknown:int main(void){;;{;}x;y;}
7 Unknown:int main(void){return x;y;}
9 Unknown:int main(void){return 0;y;}
ok:int main(void){;{}{;}if(1);else;for(;;)return 0;}
ok:int f(int x){for(int x=x;x;x--){int x=2;x++;}while(x){int x;x=0;break;}return x;}int main(void){}
ok:int main(void){int a=1;int b=a;{int a=b;int b=a;b=2;}return b;}
13 Twice:int main(void){for(int i=0,i=1;;);}
ok:int main(void){for(int i=0;;){for(int i=1;;);}}
18 Operand:int*p;int main(void){for(int i=0;i<p;i++);}
26 Unknown:int main(void){for(int i=0;i<1;i++){int j;}return j;}
17 Unknown:int main(void){for(int i=0;i<1;j++){int j;}}
9 Incomplete:int main(void){for(void x;;);}
ok:int main(void){static int n=1;static char a[2]=\"b\";n++;return a[n];}
";

#[test]
fn judges_statements(rt: HostRuntime) -> Result<(), Fail> {
    agree(&rt, rt.alloc(), ROWS)?;
    first_wins(&rt, rt.alloc(), ROWS)
}
