//! What is a place that is assigned or stepped, or whose address is taken.

use super::{agree, first_wins};
use std::test::Fail;

const ROWS: &str = "\
7 NotPlace:int main(void){1=2;}
14 NotPlace:int x;int main(void){(x+1)=2;}
ok:int x;int main(void){(x)=2;((x))++;&(x);}
11 NotPlace:int x;int main(void){x++=1;}
11 NotPlace:int x;int main(void){++x=1;}
6 NotPlace:int main(void){++1;}
6 NotPlace:int main(void){--1;}
7 NotPlace:int main(void){1++;}
7 NotPlace:int main(void){1--;}
11 NotPlace:int x;int main(void){x++++;}
9 NotPlace:int x;int main(void){++x++;}
6 NotPlace:int main(void){&1;}
9 NotPlace:int x;int main(void){&(x+1);}
9 NotPlace:int x;int main(void){&x++;}
9 NotPlace:int x;int main(void){&-x;}
10 NotPlace:int*p;int main(void){& &*p;}
ok:int x;int a[2];int*p;int main(void){&x;&a;&a[1];&*p;&p[1];&p;&*&x;&\"ab\";}
19 NotPlace:int a[2];int b[2];int main(void){a=b;}
12 NotPlace:int a[2];int main(void){++a;}
13 NotPlace:int a[2];int main(void){a++;}
13 NotPlace:int a[2];int main(void){a--;}
13 NotPlace:int a[2];int main(void){a+=1;}
15 NotPlace:int a[2];int main(void){(a)=0;}
19 NotPlace:int a[2][2];int main(void){a[1]=0;}
17 NotPlace:int a[2][2];int main(void){*a=0;}
ok:int a[2][2];int main(void){a[1][1]=0;**a=1;*a[1]=2;(*a)[1]=3;}
19 NotPlace:int f(void){return 0;}int main(void){f()=1;}
16 NotPlace:int f(void){return 0;}int main(void){&f();}
17 NotFunction:int f(void){return 0;}int main(void){&f;}
16 NotFunction:int f(void){return 0;}int main(void){f=1;}
16 NotFunction:int f(void){return 0;}int main(void){f++;}
14 NotPlace:int x;int main(void){(x=1)=2;}
ok:int x;int y;int main(void){x=y=2;}
17 NotPlace:int x;int y;int main(void){(x,y)=1;}
19 NotPlace:int x;int y;int main(void){(1?x:y)=1;}
15 NotPlace:int x;int main(void){((int)x)=1;}
9 NotPlace:int x;int main(void){&(int)x;}
ok:int main(void){\"abc\"[0]=1;*\"abc\"=2;}
7 NotPlace:int main(void){\"abc\"=0;}
10 NotPlace:int main(void){sizeof(int)=1;}
11 NotPlace:int x;int main(void){-x=1;}
11 NotPlace:int x;int main(void){!x=1;}
11 NotPlace:int x;int main(void){&x=0;}
7 NotPlace:int main(void){NULL=0;}
7 NotPlace:int main(void){EOF=0;}
7 NotPlace:int main(void){1+=1;}
6 NotPlace:int main(void){&NULL;}
20 NotPlace:struct s{int a;}x;int main(void){(x=x)=x;}
21 NotPlace:struct s{int a[2];}x;int main(void){x.a=0;}
22 NotPlace:struct s{int a[2];}*p;int main(void){p->a++;}
ok:struct s{int a;struct{int b;}c;}x;struct s*p;int main(void){x.a=1;p->a=2;x.c.b=3;(&x)->a=4;(*p).a++;&p->c;x.c=p->c;}
16 Operand:struct s{int a;}x;int main(void){x++;}
15 Operand:struct s{int a;}x;int main(void){--x;}
ok:int*p;char**q;int main(void){p++;--p;q++;*p++=1;**q=2;(*p)--;++*p;}
11 Operand:void*v;int main(void){v++;}
10 Operand:void*v;int main(void){--v;}
13 NotPlace:void f(void){}int main(void){&f();}
16 NotPlace:void f(void){}int main(void){f()++;}
16 NotPlace:void f(void){}int main(void){f()=1;}
10 NotPlace:int x;int main(void){1=x=2;}
ok:int f(int a[2]){a=0;a++;return *a;}int main(void){}
17 NotPlace:int f(int a[2][2]){a[0]=0;return 0;}int main(void){}
13 NotPlace:int x;int main(void){(+x)=1;}
19 NotPlace:int x;int main(void){*&x=1;&*&x=0;}
";

#[test]
fn knows_places(rt: HostRuntime) -> Result<(), Fail> {
    agree(&rt, rt.alloc(), ROWS)?;
    first_wins(&rt, rt.alloc(), ROWS)
}
