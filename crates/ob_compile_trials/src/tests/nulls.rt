//! Null pointer constants and their casts, and pointers that convert.

use super::{agree, first_wins};
use std::test::Fail;

const ROWS: &str = "\
ok:int*p;int main(void){p=0;p=NULL;p=1-1;p=(int*)0;p=(char*)0;p=(void*)0;p=(0);p='\\0';p=0u;p=0ll;p=(char)256;p=sizeof(int)-4;}
ok:char*q;int main(void){q=(int*)0;q=(struct s*)0;q=(int**)NULL;q=(void*)(1-1);q=((int*)0);q=(int*)(0);q=(int*)(NULL);}
12 Assign:int*p;int main(void){p=1;}
12 Assign:int*p;int main(void){p=EOF;}
15 Assign:int*p;int x;int main(void){p=x;}
15 Assign:int*p;int x;int main(void){p=x*0;}
12 Assign:int*p;int main(void){p=(1,0);}
ok:int*p;int main(void){p=1?0:1;p=0?1:0;}
14 Unknown:int*p;int main(void){p=0?x:0;}
15 Assign:int*p;int x;int main(void){p=0?x:0;}
15 Assign:int*p;int x;int main(void){p=0&&x;}
ok:int*p;int main(void){p=0&&1/0;p=0?1/0:0;p=!1;p=1>2;p=0*5;p=~-1;}
12 Assign:int*p;int main(void){p=0/0;}
12 Assign:char*q;int main(void){q=(int*)(char*)0;}
12 Assign:char*q;int main(void){q=(int*)(void*)0;}
ok:void*v;char*q;int main(void){q=(char*)(int*)0;q=(void*)(int*)0;v=(int*)(char*)0;}
12 Assign:char*q;int main(void){q=1?(int*)0:(int*)0;}
12 Assign:char*q;int main(void){q=(1,(int*)0);}
ok:char*q;int*p;int main(void){q=1?NULL:NULL;p=1?NULL:0;p=1?0:NULL;}
ok:char*q;int*p;int main(void){p=1?p:0;p=0?NULL:p;p=1?p:(char*)0;q=1?(int*)0:q;p=1?(int*)0:NULL;p=1?NULL:(int*)0;}
16 Assign:char*q;int*p;int main(void){q=1?p:0;}
12 Assign:char*q;int main(void){q=1?(int*)0:NULL;}
12 Assign:char*q;int main(void){q=1?0:(int*)0;}
12 Assign:char*q;int main(void){q=1?(int*)0:(char*)0;}
ok:int*p;int main(void){p=1?(int*)0:(char*)0;p=1?(void*)0:(int*)0;}
ok:char*q;int*p;void*v;int main(void){q=1?v:p;q=1?p:v;p=v?v:q;}
16 Assign:char*q;int*p;int main(void){p=q;}
15 Operand:char*q;int*p;int main(void){1?p:q;}
11 Operand:int*p;int main(void){1?p:1;}
14 Operand:int*p;int x;int main(void){1?x:p;}
11 Operand:int*p;int main(void){1?(1,0):p;}
ok:int*p;int main(void){p==0;0==p;p!=NULL;p==(char*)0;NULL==NULL;0==NULL;NULL==0;(int*)0==(char*)0;}
11 Operand:int*p;int main(void){p==1;}
11 Operand:int*p;int main(void){p==(1,0);}
7 Operand:int main(void){NULL==1;}
11 Operand:int*p;int main(void){p<0;}
11 Operand:int*p;int main(void){p<NULL;}
11 Operand:int*p;int main(void){p>=(char*)0;}
ok:int*p;int main(void){p<(int*)0;p<=p;NULL<NULL;(void*)p<NULL;}
7 Operand:int main(void){NULL+1;}
ok:int main(void){(int*)0+1;(int*)NULL-(int*)0;*(int*)0;!NULL;NULL&&NULL;NULL?1:2;}
6 Operand:int main(void){*NULL;}
7 Operand:int main(void){NULL[0];}
6 Operand:int main(void){(int)NULL;}
6 Operand:int main(void){(int*)(1,0);}
ok:int f(int*p){return 0;}int main(void){f(0);f(NULL);f((char*)0);f((void*)0);return f(1-1);}
21 Assign:int f(int*p){return 0;}int main(void){return f(1);}
21 Assign:int f(int*p){return 0;}int main(void){return f((char*)(int*)0);}
ok:int*f(void){return 0;}char*g(void){return (int*)0;}int main(void){f();g();}
8 Assign:int*f(void){return 1;}int main(void){}
ok:int a[sizeof NULL==8&&sizeof EOF==4&&sizeof(1?0:NULL)==8?1:-1];int main(void){}
ok:int*p;int a[sizeof*(1?p:0)==4&&sizeof*(1?(char*)0:NULL)==1&&sizeof*(1?NULL:(int*)0)==4&&sizeof*(1?0:p)==4?1:-1];int main(void){}
14 Operand:void*v;int*p;int main(void){*(1?v:p);}
6 Operand:int main(void){*(1?NULL:0);}
17 Assign:int**p;int*q;int main(void){p=q;}
18 Assign:int**p;void**q;int main(void){p=q;}
ok:int**p;void*q;int main(void){p=q;q=p;q=&q;}
16 Assign:unsigned*p;int*q;int main(void){p=q;}
17 Assign:char*p;signed char*q;int main(void){p=q;}
17 Assign:long*p;long long*q;int main(void){p=q;}
21 Assign:int*p;int main(void){int a[2][2];p=a;}
18 Assign:int*p;int main(void){int a[2];p=&a;}
ok:int*p;int main(void){int a[2][2];p=a[1];p=*a;p=&a[1][1];}
21 Assign:struct s{int a;}x;int*p;int main(void){p=&x;}
15 Assign:int x;int*p;int main(void){x=p;}
11 Assign:int x;int main(void){x=\"a\";}
11 Assign:int x;int main(void){x=&x;}
ok:char c;unsigned long u;short s;int main(void){c=u;u=c;s=-1;u=-1;c=s<u;}
";

#[test]
fn knows_null_constants(rt: HostRuntime) -> Result<(), Fail> {
    agree(&rt, rt.alloc(), ROWS)?;
    first_wins(&rt, rt.alloc(), ROWS)
}
