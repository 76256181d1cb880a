//! Initialisers: how many items, lists, strings and their zero, structures.

use super::{agree, first_wins};
use std::test::Fail;

const ROWS: &str = "\
ok:int a[2]={1,2},b[3]={1},c[2]={1,2,},d[]={1,2,3};int e[sizeof d==12?1:-1];int main(void){}
11 Count:int a[2]={1,2,3};int main(void){}
9 Count:int a[1]={1,2,3};int main(void){}
17 Count:int main(void){int a[2]={1,2,3};}
3 Count:int x={1};int main(void){}
9 Count:int main(void){int x={1};}
4 Count:int*p={0};int main(void){}
6 Count:int a[2]=1;int main(void){}
5 Count:int a[]=1;int main(void){}
18 Count:int main(void){int b[2];int a[2]=b;}
9 Assign:struct s{int a;}x=1;int main(void){}
15 Assign:int main(void){struct s{int a;}x=1;}
13 Operand:struct s{int a;}x;struct s y=x;int main(void){}
20 Operand:struct s{int a;}x;int main(void){static struct s y=x;}
ok:struct s{int a;}x;int main(void){struct s y=x;}
27 Assign:struct s{int a;}x;struct t{int a;};int main(void){struct t y=x;}
18 Operand:struct s{int a;}x;int main(void){int y=x;}
22 Operand:struct s{int a;}x[2];int main(void){int y=x[1];}
20 Operand:struct s{int a;}x;int main(void){struct s y=x=x;}
ok:struct s{int a;int b;}x={1,2},y={1},z={1,2,};int main(void){}
17 Count:struct s{int a;int b;}x={1,2,3};int main(void){}
ok:struct s{int a;int b[2];}x={1,{2,3}};int main(void){}
18 Count:struct s{int a;int b[2];}x={1,2,3};int main(void){}
23 Count:struct s{int a;int b[2];}x={1,{2,3,4}};int main(void){}
ok:int a[2][2]={{1,2},{3}};int main(void){}
15 Count:int a[2][2]={{1,2,3}};int main(void){}
10 Count:int a[2][2]={1,2};int main(void){}
18 Count:int a[2][2]={{1},{2},{3}};int main(void){}
7 Count:int a[2]={{1}};int main(void){}
5 Incomplete:struct t;struct t x={1};int main(void){}
1 Incomplete:void x=1;int main(void){}
ok:struct s{int a;}x[]={{1},{2}};int a[sizeof x==8?1:-1];int main(void){}
ok:int main(void){struct s{int a;}x={1};struct s y[2]={x,x};struct t{struct s b;int c;}z={x,1};}
17 Operand:struct s{int a;}x;struct s y[1]={x};int main(void){}
ok:char a[3]=\"ab\",b[2]=\"ab\",c[1]=\"\",d[]=\"ab\",e[9]=\"ab\";int f[sizeof d==3?1:-1];int main(void){}
6 Count:char a[1]=\"ab\";int main(void){}
6 Count:char a[3]=\"abcd\";int main(void){}
ok:char a[3]=\"abc\";int main(void){}
ok:unsigned char a[3]=\"ab\";signed char b[2]=\"ab\";unsigned char c[]=\"\";int d[sizeof c];int main(void){}
7 Count:unsigned char a[1]=\"ab\";int main(void){}
6 Count:int a[3]=\"ab\";int main(void){}
5 Count:short a[]=\"ab\";int main(void){}
ok:char*a=\"ab\";void*b=\"ab\";int main(void){}
4 Assign:int*a=\"ab\";int main(void){}
5 Assign:unsigned char*a=\"ab\";int main(void){}
3 Assign:char a=\"a\";int main(void){}
7 Assign:char a[3]={\"ab\"};int main(void){}
6 Count:char a[3]=(\"ab\");int main(void){}
ok:char a[2][3]={\"ab\",\"c\"},b[2][1]={\"a\",\"b\"};int main(void){}
12 Count:char a[2][1]={\"a\",\"bc\"};int main(void){}
ok:struct{char a[2];}x={\"ab\"};int main(void){}
12 Count:struct{char a[2];}x={\"abc\"};int main(void){}
ok:char a[]={1,2},b[2]=\"a\" \"b\",c[3]=\"a\\0b\",d[]={'a','b',0};int main(void){}
6 Count:char a[2]=\"ab\" \"c\";int main(void){}
6 Count:char a[2]=\"a\\0b\";int main(void){}
ok:int main(void){char a[2]=\"ab\";char b[]=\"abc\";int c[sizeof b==4?1:-1];}
12 Count:int main(void){char a[2]=\"abc\";}
ok:int main(void){static char a[]=\"abc\";int c[sizeof a==4?1:-1];}
10 Count:char*a[1]={\"a\",\"b\"};int main(void){}
ok:char*a[]={\"a\",\"b\",0};int b[sizeof a==24?1:-1];int main(void){}
11 Unknown:int a[1]={1,2,x};int main(void){}
12 Count:int y;int a[1]={1,y};int main(void){}
22 Count:void f(void){}int main(void){int a[1]={1,f()};}
7 Assign:int a[1]={NULL,2};int main(void){}
7 Unknown:int a[2]={x,NULL};int main(void){}
7 Assign:int a[2]={NULL,x};int main(void){}
3 Unknown:int x=y;int main(void){}
4 Unknown:int x={y};int main(void){}
3 Count:int x={1,2};int main(void){}
3 Count:int x={NULL};int main(void){}
5 Unknown:int x={{y}};int main(void){}
10 Constant:int y;int a[1]={y,2};int main(void){}
ok:char c=300;unsigned u=-1;long l=1u;short s=-70000;int main(void){}
ok:int f(int n){int a[2]={n,n+1};char*p=0;long l=n;return a[1];}int main(void){}
ok:struct s{char a[2];int*b;}x[2]={{\"a\",0},{{1,2},NULL}};int main(void){}
16 Assign:struct s{int a;int*b;}x={0,2};int main(void){}
14 Assign:struct s{int a;int*b;}x={NULL,0};int main(void){}
ok:struct s{struct{int a;}b;int c[1];}x={{1},{2}};int main(void){}
15 Assign:struct s{struct{int a;}b;}x={1};int main(void){}
4 Twice:int x;int x={y};int main(void){}
12 Incomplete:int main(void){int a[]={sizeof a};}
ok:int main(void){int a[]={1,2};return sizeof a;}
";

#[test]
fn judges_initialisers(rt: HostRuntime) -> Result<(), Fail> {
    agree(&rt, rt.alloc(), ROWS)?;
    first_wins(&rt, rt.alloc(), ROWS)
}
