//! Values of type `void` and of structure type in each position, and the operand of each unary operator and cast.

use super::{agree, first_wins};
use std::test::Fail;

const ROWS: &str = "\
ok:void f(void){}int main(void){f();(void)1;(void)f();f(),f();1,f();f(),1;(f());for(f();;f())break;(void)NULL;(void)(1,f());}
14 Operand:void f(void){}int main(void){1?f():f();}
14 Operand:void f(void){}int main(void){1?f():1;}
14 Operand:void f(void){}int main(void){1?1:f();}
16 Operand:void f(void){}int main(void){f()?1:2;}
15 Operand:void f(void){}int main(void){if(f());}
15 Operand:void f(void){}int main(void){while(f());}
17 Operand:void f(void){}int main(void){do;while(f());}
16 Operand:void f(void){}int main(void){for(;f(););}
14 Operand:void f(void){}int main(void){return f();}
14 Operand:void f(void){}void g(void){return f();}int main(void){}
15 Operand:void f(void){}int main(void){return 1,f();}
14 Operand:void f(void){}int main(void){return (void)1;}
16 Operand:void f(void){}int main(void){f()+1;}
14 Operand:void f(void){}int main(void){1+f();}
16 Operand:void f(void){}int main(void){f()*f();}
13 Operand:void f(void){}int main(void){-f();}
13 Operand:void f(void){}int main(void){+f();}
13 Operand:void f(void){}int main(void){~f();}
13 Operand:void f(void){}int main(void){!f();}
13 Operand:void f(void){}int main(void){*f();}
16 Operand:void f(void){}int main(void){f()[0];}
14 Operand:void f(void){}int main(void){0[f()];}
20 Operand:void f(void){}int a[2];int main(void){a[f()];}
13 Operand:void f(void){}int main(void){(int)f();}
13 Operand:void f(void){}int main(void){(char*)f();}
16 Operand:void f(void){}int main(void){f()==0;}
16 Operand:void f(void){}int main(void){f()&&1;}
14 Operand:void f(void){}int main(void){1||f();}
17 Operand:void f(void){}int x;int main(void){x=f();}
17 Operand:void f(void){}int x;int main(void){x+=f();}
18 Operand:void f(void){}int*x;int main(void){x-=f();}
24 Operand:void f(void){}int g(int a){return a;}int main(void){g(f());}
13 Operand:void f(void){}int main(void){putchar((void)1);}
16 Operand:void f(void){}int main(void){int x=f();}
20 Operand:void f(void){}int main(void){int a[1]={f()};}
16 Operand:void f(void){}int main(void){int x=(f());}
13 Incomplete:void f(void){}int main(void){sizeof f();}
6 Incomplete:int main(void){sizeof((void)1);}
10 Operand:void*v;int main(void){*v;}
11 Operand:void*v;int main(void){&*v;}
10 Operand:void*v;int main(void){*v=1;}
11 Operand:void*v;int main(void){v[0];}
11 Operand:void*v;int main(void){v+1;}
11 Operand:void*v;int main(void){v-v;}
11 Operand:void*v;int main(void){v+=1;}
ok:void*v;int main(void){v<v;v==v;v=v;!v;v&&v;v?1:2;(char*)v;(void)v;if(v);while(v);}
ok:void f(void){return;}void g(){}int main(void){f();g();}
ok:struct s{int a;}x;int main(void){x=x;x=x,1;1,x=x;(void)(x=x);(x=x);for(x=x;0;x=x);}
15 Operand:struct s{int a;}x;int main(void){x;}
19 Operand:struct s{int a;}x[2];int main(void){x[0];}
21 Operand:struct s{struct{int b;}a;}x;int main(void){x.a;}
16 Operand:struct s{int a;}*x;int main(void){*x;}
16 Operand:struct s{int a;}x;int main(void){x,1;}
16 Operand:struct s{int a;}x;int main(void){1,x;}
16 Operand:struct s{int a;}x;int main(void){1?x:x;}
16 Operand:struct s{int a;}x;int main(void){x?1:2;}
15 Operand:struct s{int a;}x;int main(void){(int)x;}
15 Operand:struct s{int a;}x;int main(void){(void)x;}
15 Operand:struct s{int a;}x;int main(void){(struct s)x;}
6 Operand:int main(void){(struct s{int a;})1;}
26 Operand:struct s{int a;}x;int g(int a){return a;}int main(void){g(x);}
16 Operand:struct s{int a;}x;int main(void){return x;}
16 Operand:struct s{int a;}x;int main(void){x+x;}
16 Operand:struct s{int a;}x;int main(void){x==x;}
15 Operand:struct s{int a;}x;int main(void){!x;}
15 Operand:struct s{int a;}x;int main(void){-x;}
15 Operand:struct s{int a;}x;int main(void){*x;}
16 Operand:struct s{int a;}x;int main(void){x&&1;}
17 Operand:struct s{int a;}x;int main(void){if(x);}
17 Operand:struct s{int a;}x;int main(void){for(x;0;);}
20 Operand:struct s{int a;}x;int main(void){for(;0;x);}
18 Operand:struct s{int a;}x;int main(void){for(;x;);}
19 Operand:struct s{int a;}x;int y;int main(void){y=x;}
16 Operand:struct s{int a;}x;int main(void){x=x=x;}
16 Operand:struct s{int a;}x;int main(void){x+=x;}
22 Operand:struct s{int a;}x;int a[2];int main(void){a[x];}
17 Assign:struct s{int a;}x;int main(void){x=1;}
26 Assign:struct s{int a;}x;struct t{int a;}y;int main(void){x=y;}
ok:struct s{int a;}x;int main(void){return sizeof x+sizeof(x)+(&x==0);}
16 Incomplete:struct s{int a;}x;int main(void){return sizeof(x=x);}
22 Member:struct s{int a;}x;int main(void){return (x=x).a;}
9 Operand:int x;int main(void){(int[2])x;}
10 Operand:int*x;int main(void){(int)x;}
9 Operand:int x;int main(void){(int*)x;}
6 Operand:int main(void){(int*)1;}
6 Operand:int main(void){(long)NULL;}
ok:int x;int*p;int main(void){(char)x;(char*)p;(void*)p;(int**)p;(int*)0;(int*)NULL;(void)p;(struct s*)p;(unsigned long)x;}
10 Operand:int*p;int main(void){-p;}
10 Operand:int*p;int main(void){+p;}
10 Operand:int*p;int main(void){~p;}
9 Operand:int x;int main(void){*x;}
10 Operand:int x;int main(void){x[x];}
11 Operand:int*p;int main(void){p[p];}
11 Operand:int*p;int main(void){p[NULL];}
ok:int*p;int x;int main(void){p[x];x[p];p['a'];!p;*p;*&x;+x;-x;~x;!x;*\"a\";0[\"a\"];}
";

#[test]
fn refuses_voids_and_structures(rt: HostRuntime) -> Result<(), Fail> {
    agree(&rt, rt.alloc(), ROWS)?;
    first_wins(&rt, rt.alloc(), ROWS)
}
