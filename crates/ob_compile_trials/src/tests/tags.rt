//! Structures: where a tag is in force, what is complete, and members.

use super::{agree, first_wins};
use std::test::Fail;

const ROWS: &str = "\
ok:struct s*p;int main(void){}
ok:struct s;int main(void){}
2 Incomplete:struct s x;int main(void){}
2 Incomplete:struct s x;struct s{int a;};int main(void){}
ok:struct s;struct s*p;struct s{int a;};int main(void){return p->a;}
14 Member:struct s*p;int main(void){return p->a;}struct s{int a;};
5 Incomplete:struct s{struct s x;};int main(void){}
6 Incomplete:struct s{int a[sizeof(struct s)];};int main(void){}
ok:struct s{struct s*x;};int main(void){}
13 Incomplete:struct s{struct s*x[2];struct s y[2];};int main(void){}
9 Twice:struct s{int a;};struct s{int a;};int main(void){}
15 Twice:struct s{int a;};struct s{int b;int b;};int main(void){}
15 Twice:int main(void){struct s{int a;};struct s{int a;}x;}
ok:struct s{int a;};int main(void){struct s{char b;};struct s x;x.b=1;}
26 Member:struct s{int a;};int main(void){struct s{char b;}x;return x.a;}
32 Member:struct s{int a;};int main(void){{struct s{char b;};}{struct s x;return x.b;}}
ok:struct s{int a;};int main(void){struct s*p;struct s{char b;};return p->a;}
25 Member:struct s{int a;};int main(void){struct s;struct s*p;return p->a;}
ok:struct s{int a;};int main(void){struct s;struct s*p;struct s{int b;};return p->b;}
19 Incomplete:struct s{int a;};int main(void){struct s;struct s x;}
ok:struct s{int a;};int main(void){struct s*p;struct s x;return x.a;}
23 Twice:struct s{int a;};int f(void){struct s{int b;};struct s{int b;};return 0;}int main(void){}
ok:int f(struct s*p);int main(void){}
12 Member:int f(struct s*p){return p->a;}struct s{int a;};int main(void){}
ok:int f(struct s{int a;}*p){return p->a;}int main(void){}
ok:int f(struct s{int a;}*p){struct s x;x.a=1;return x.a;}int main(void){}
15 Twice:int f(struct s{int a;}*p){struct s{int b;};return 0;}int main(void){}
26 Incomplete:int f(struct s{int a;}*p){return 0;}int main(void){struct s x;}
31 Assign:int f(struct s*p){return 0;}struct s{int a;}x;int main(void){return f(&x);}
ok:struct s;int f(struct s*p){return 0;}struct s{int a;}x;int main(void){return f(&x);}
10 Twice:int f(struct s*p);int f(struct s*p);int main(void){}
ok:struct s;int f(struct s*p);int f(struct s*p);int main(void){}
ok:struct s*f(void);struct s*f(void);int main(void){}
16 Operand:int f(struct s*p,struct t*q){return p==q;}int main(void){}
ok:int f(struct s*p,struct s*q){return p==q;}int main(void){}
ok:int main(void){for(struct s{int a;}x={1};x.a;x.a=0);}
34 Incomplete:int main(void){for(struct s{int a;}x={1};x.a;x.a=0);struct s y;}
ok:int main(void){for(struct s{int a;};0;){struct s x;x.a=1;}}
22 Incomplete:int main(void){for(struct s{int a;};0;);struct s y;}
27 Member:int main(void){for(struct s*p;0;){struct s{int a;};p->a;}}
ok:int main(void){for(struct s{int a;}*p=0;0;){p->a;struct s{char b;}q;q.b=1;}}
ok:int main(void){while(sizeof(struct s{int a;})==0){struct s x;x.a=1;}}
24 Incomplete:int main(void){while(sizeof(struct s{int a;})==0);struct s x;}
19 Incomplete:int main(void){do{struct s{int a;};}while(sizeof(struct s));}
26 Incomplete:int main(void){do;while(sizeof(struct s{int a;})==0);struct s x;}
23 Incomplete:int main(void){if(sizeof(struct s{int a;})){}struct s x;}
ok:int main(void){if(sizeof(struct s{int a;})){struct s x;x.a=1;}else{struct s y;y.a=2;}}
22 Incomplete:int main(void){if(1)sizeof(struct s{int a;});else sizeof(struct s);}
23 Incomplete:int main(void){if(1)sizeof(struct s{int a;});struct s x;}
23 Incomplete:int main(void){while(0)sizeof(struct s{int a;});struct s x;}
25 Incomplete:int main(void){for(;0;)sizeof(struct s{int a;});struct s x;}
25 Incomplete:int main(void){do sizeof(struct s{int a;});while(0);struct s x;}
ok:int main(void){return sizeof(struct s{int a;})+sizeof(struct s);}
7 Incomplete:int main(void){return sizeof(struct s)+sizeof(struct s{int a;});}
ok:struct s{int a;}*f(void){return 0;}int main(void){struct s x;x.a=1;return x.a;}
ok:struct t{struct s{int a;}b;};int main(void){struct s x;x.a=1;}
ok:int a[sizeof(struct s{int b;})];struct s x;int main(void){}
ok:int main(void){(struct s{int a;}*)0;struct s x;x.a=1;}
18 Member:struct s{int a;}x;int main(void){return x.b;}
12 Member:int x;int main(void){return x.a;}
19 Member:struct s{int a;}*p;int main(void){return p.a;}
18 Member:struct s{int a;}x;int main(void){return x->a;}
13 Member:int*p;int main(void){return p->a;}
20 Member:struct s{int a;}**p;int main(void){return p->a;}
21 Member:struct s{int a;}x[2];int main(void){return x.a;}
ok:struct s{int a;}x[2];int main(void){return x->a;}
ok:struct s{char a,b,c,d,e,f,g,h,i,j,k,l,m,n,o;int*p;}x;int main(void){return x.a+*x.p;}
ok:struct s{char a,b,c,d,e,f,g,h,i,j,k,l,m,n,o,p;int*q;}x;int main(void){return x.a+x.p+*x.q;}
51 Member:struct s{char a,b,c,d,e,f,g,h,i,j,k,l,m,n,o,p;int q;}x;int main(void){return x.r;}
ok:struct s{int a[3];struct{int b,c,d;}e;char f,g,h,i,j,k,l,m,n,o,p,q,r,s,t;}x;int main(void){return x.a[2]+x.e.d+x.t;}
ok:struct s{struct{int b;}a;}x;int main(void){return x.a.b;}
23 Member:struct s{struct{int b;}a;}x;int main(void){return x.b;}
17 Member:void f(void){}int main(void){f().a;}
17 Member:void f(void){}int main(void){f()->a;}
11 Member:int main(void){return (1).a;}
9 Member:int main(void){return NULL->a;}
18 Member:struct s{int s;}x;int main(void){return x.x;}
ok:struct s{int a;}*f(void){return 0;}int main(void){return f()->a;}
4 Incomplete:struct s{void a;};int main(void){}
ok:struct s{void*a;};int main(void){}
11 Incomplete:struct s{int a[2];struct t b;};int main(void){}
13 Operand:struct s*p;int main(void){*p=*p;}
12 Incomplete:struct s*p;int main(void){return sizeof*p;}
ok:struct s*p;int main(void){return &*p==p;}
11 Operand:struct s*p;int main(void){*p;}
12 Operand:struct s*p;int main(void){p+1;}
12 Operand:struct s*p;int main(void){p[0];}
12 Operand:struct s*p;int main(void){p++;}
ok:struct s*p;int main(void){struct s{int a;};p=0;}struct s{int a;};int f(void){return p[1].a;}
";

#[test]
fn finds_tags_and_members(rt: HostRuntime) -> Result<(), Fail> {
    agree(&rt, rt.alloc(), ROWS)?;
    first_wins(&rt, rt.alloc(), ROWS)
}
