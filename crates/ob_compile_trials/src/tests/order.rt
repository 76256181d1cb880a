//! Two faults in a program, of which the first is told.

use super::{agree, first_wins};
use std::test::Fail;

const ROWS: &str = "\
6 Unknown:int main(void){x+y;}
12 Unknown:int*p;int main(void){p*x;}
8 Unknown:int main(void){1=x;}
6 Unknown:int main(void){x=1=2;}
7 NotPlace:int main(void){1=2;x;}
7 NotPlace:int main(void){1=NULL;}
16 NotPlace:struct s{int a;}x;int main(void){1=x;}
14 NotPlace:void f(void){}int main(void){1=f();}
14 Unknown:int a[2];int main(void){a[x].b;}
17 Member:struct s{int a;}x;int main(void){x.b=y;}
6 Unknown:int main(void){x?y:z;}
8 Unknown:int main(void){1?y:z;}
17 Operand:void f(void){}int main(void){(f()+1)?x:y;}
9 Constant:int main(void){(int[0])x;}
10 Constant:int main(void){sizeof(int[0])+x;}
7 Operand:int main(void){(*1)+x;}
8 Unknown:int main(void){(*x)+(*1);}
6 Constant:struct s{int a[0];}x[y];int main(void){}
3 Constant:int a[0]={x};int main(void){}
6 Unknown:int x;int x[y];int main(void){}
4 Twice:int x;int x=y;int main(void){}
4 Twice:int x;void x=y;int main(void){}
1 Incomplete:void x=y;int main(void){}
1 Incomplete:void x,x;int main(void){}
1 Constant:char a[4194305]={y};int main(void){}
16 Constant:int f(void){return 0;}int f(int a[0]){return x;}int main(void){}
11 Twice:int f(void){return 0;}int f(void){return x;}int main(void){}
7 Twice:int f(void);int f(int a){return x;}int main(void){}
7 Twice:int f(int a,int a){return x;}int main(void){}
4 Incomplete:int f(void a,int a);int main(void){}
7 Twice:struct s{int a;int a;void b;};int main(void){}
4 Incomplete:struct s{void b;int a;int a;};int main(void){}
3 Unknown:int a=x,b=y;int main(void){}
9 Unknown:int main(void){int a=x;int a;}
6 Unknown:int main(void){x;}int main(void){y;}
19 Unknown:int f(int a){return a;}int main(void){f(x,y);}
21 Unknown:int f(int a){return a;}int main(void){f(NULL,y);}
20 Operand:int f(int a){return a;}int main(void){f(NULL+1,x);}
8 Unknown:int main(void){g(y);}
6 Unknown:int main(void){x[y];}
7 Unknown:int a[1]={x,y};int main(void){}
9 Unknown:int a[2]={1,x,3};int main(void){}
13 Count:int a[2][1]={{1,2},x};int main(void){}
6 Jump:int main(void){break;x;}
6 Unknown:int main(void){x;break;}
11 Operand:int*p;int main(void){p*2,x;}
12 Assign:int*p;int main(void){p=1,x;}
14 Unknown:int*p;int main(void){p=1+x;}
12 NotFunction:int f(void);int main(void){f+x;}
12 NotFunction:int f(void);int main(void){f=x;}
12 Unknown:int f(void);int main(void){x=f;}
12 Count:int f(void);int main(void){f(1);x;}
14 Unknown:int f(void);int main(void){f(x);}
10 Unknown:int main(void){return (int)x+(char*)1;}
12 NoBody:int f(void);int main(void){f();}void g(void){f();}
3 Incomplete:int a[sizeof(void)][0];int main(void){}
9 Constant:int main(void){int b[0];int b;}
10 Twice:int main(void){int b;int b;int c[0];}
6 NotPlace:int main(void){++1+x;}
10 NotPlace:int main(void){1=(2=3);}
5 Incomplete:struct s f(void x){return y;}int main(void){}
";

#[test]
fn tells_the_first(rt: HostRuntime) -> Result<(), Fail> {
    agree(&rt, rt.alloc(), ROWS)?;
    first_wins(&rt, rt.alloc(), ROWS)
}
