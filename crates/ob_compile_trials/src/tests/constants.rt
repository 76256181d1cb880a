//! Constant expressions: lengths, and what initialises static objects.

use super::{agree, first_wins};
use std::test::Fail;

const ROWS: &str = "\
ok:int a[1+2*3-4/2%3],b['a'],c[-EOF],d[!0],e[~-2];int main(void){}
ok:int a[(char)257],b[(unsigned char)-1],c[1?1:0],d[0?0:1],e[1||1/0],f[1?2:1/0];int main(void){}
3 Constant:int a[(char)256];int main(void){}
3 Constant:int a[0&&1/0];int main(void){}
3 Constant:int a[1/0];int main(void){}
3 Constant:int a[1%0];int main(void){}
3 Constant:int a[0||1/0];int main(void){}
3 Constant:int a[1&&1/0];int main(void){}
3 Constant:int a[0?1:1/0];int main(void){}
3 Constant:int a[(1,2)];int main(void){}
6 Constant:int x;int a[(x=1)];int main(void){}
6 Constant:int x;int a[x?1:1];int main(void){}
6 Constant:int x;int a[1||x];int main(void){}
9 Constant:int f(void);int a[f()];int main(void){}
3 Operand:int a[(int)(void*)0];int main(void){}
3 Constant:int a[NULL];int main(void){}
3 Constant:int a[\"x\"];int main(void){}
9 Operand:void f(void);int a[f()];int main(void){}
12 Operand:struct s{int b;}x;int a[x];int main(void){}
12 Operand:struct s{int b;}x;int a[*&x];int main(void){}
ok:int x;int a[sizeof x++];int main(void){}
3 Constant:int a[!(void*)0];int main(void){}
3 Constant:int a[NULL==0];int main(void){}
6 Constant:int x;int a[&x!=0];int main(void){}
3 Constant:int a[\"ab\"[0]];int main(void){}
3 Constant:int a[2147483647+1];int main(void){}
ok:int a[0u-1>0],b[-1<0L],c[-1<0ul?-1:1],d[1<<3],e[-7/2+4],f[-7%2+2];int main(void){}
3 Constant:int a[-1>0u?-1:1];int main(void){}
3 Constant:int a[-1<0u];int main(void){}
3 Constant:int a[1<<31];int main(void){}
ok:int a[1<<33>>1];int main(void){}
1 Constant:int a[1l<<31];int main(void){}
ok:char a[(1<<22)-1];int main(void){}
Statics:char a[1<<22];int main(void){}
1 Constant:char a[(1<<22)+1];int main(void){}
3 Constant:int a[-1>>31];int main(void){}
3 Constant:int a[(-2147483647-1)/-1];int main(void){}
ok:int a[(unsigned char)300],b[(short)65537],c[(signed char)-255],d[(long)1],e[(unsigned short)-1];int main(void){}
ok:int a[5&4],b[1^3],c[0|1],d[2>1],e[2>=2],f[1<2],g[1<=1],h[1==1],i[1!=2],j[1&&2],k[0||3];int main(void){}
3 Constant:int a[1==2];int main(void){}
ok:int x=1+1,y=1||1/0,z=sizeof z,w=-'a';int main(void){}
6 Constant:int y;int x=y;int main(void){}
3 Constant:int x=x;int main(void){}
9 Constant:int f(void);int x=f();int main(void){}
3 Constant:int x=1/0;int main(void){}
3 Constant:int x=0||1/0;int main(void){}
3 Constant:int x=(1,2);int main(void){}
ok:int*p=0;int*q=NULL;int*r=(int*)0;char*s=(void*)0;int*t=1-1;int*u=(int*)(char*)0;int main(void){}
4 Assign:int*p=1;int main(void){}
3 Assign:int x=NULL;int main(void){}
ok:int x;int*p=&x;int*q=&*&x;int*r=(&x);char*s=(char*)&x;int main(void){}
ok:int a[3];int*p=a;int*q=&a[3];int*r=a+3;int*s=a+4-1;int*t=&a[-1]+1;int*u=3+a;int*v=&1[a];int main(void){}
10 Constant:int a[3];int*p=&a[4];int main(void){}
10 Constant:int a[3];int*p=a+4;int main(void){}
10 Constant:int a[3];int*p=a-1;int main(void){}
10 Constant:int a[3];int*p=&a[-1];int main(void){}
ok:struct s{int a;int b[2];}x;int*p=&x.b[2];int*q=&x.a;int*r=&(&x)->b[1];int*s=x.b;int*t=&x.a+3;int main(void){}
19 Constant:struct s{int a;int b[2];}x;int*p=&x.b[3];int main(void){}
19 Constant:struct s{int a;int b[2];}x;int*p=&x.a-1;int main(void){}
ok:struct s{int a;int b;}x[2];struct s*p=x+2;int*q=&x[1].b+1;struct s*r=&x[2];int main(void){}
19 Constant:struct s{int a;int b;}x[2];int*p=&x[2].b+1;int main(void){}
7 Assign:int x;char*p=&x;int main(void){}
13 Assign:int a[2][2];int*p=a;int main(void){}
ok:int a[2][2];int*p=a[1];int*q=a[2];int*r=*a+4;int*s=&a[1][2];int main(void){}
13 Constant:int a[2][2];int*p=a[2]+1;int main(void){}
13 Constant:int a[2][2];int*p=a[3];int main(void){}
ok:char*s=\"abc\";char*t=\"abc\"+4;char*u=&\"abc\"[1];char*v=\"\";int main(void){}
4 Constant:char*s=\"abc\"+5;int main(void){}
4 Constant:char*s=\"abc\"-1;int main(void){}
ok:int x;char*p=(char*)&x+4;int main(void){}
7 Constant:int x;char*p=(char*)&x+5;int main(void){}
6 Operand:int x;long y=(long)&x;int main(void){}
14 Constant:int main(void){int x;static int*p=&x;}
ok:int main(void){static int x;static int*p=&x;}
ok:int x;int main(void){static int*p=&x;}
11 Constant:int f(int n){static int x=n;return x;}int main(void){}
ok:int f(int n){int x=n;int*p=&x;return *p;}int main(void){}
6 Constant:int x;int y=&x==0;int main(void){}
8 Constant:int*q;int*p=q;int main(void){}
8 Constant:int*q;int*p=&*q;int main(void){}
8 Constant:int*q;int*p=q+1;int main(void){}
8 Constant:int*q;int*p=&q[0];int main(void){}
12 Constant:struct s{int a;}x;int y=x.a;int main(void){}
14 Constant:struct s{int a;}*q;int*p=&q->a;int main(void){}
9 Constant:int a[2];int y=a[0];int main(void){}
7 Constant:int x;int*p=1?&x:0;int main(void){}
7 Constant:int x;int*p=(0,&x);int main(void){}
10 Operand:void f(void){}int x=f();int main(void){}
ok:struct L{struct L*n;int v;}l[]={{&l[1],1},{0,2}};int main(void){}
23 Constant:struct L{struct L*n;}l[]={{&l[2]},{&l[3]}};int main(void){}
6 Incomplete:int a[]={sizeof a};int main(void){}
ok:int a[2]={sizeof a};void*p=&p;int main(void){}
ok:int a[2]={1,2};int*p[2]={a,a+2};int main(void){}
12 Constant:int y;int a[2]={1,y};int main(void){}
18 Constant:int a[2];int*p[2]={a+2,a+3};int main(void){}
ok:int x;void*p=&x;void**q=&p;int main(void){}
12 Constant:int x;int n=1;int*p=&x+n;int main(void){}
ok:int x[4];int*p=x+sizeof(int);int main(void){}
10 Constant:int x[4];int*q=&x[1?2:x[0]];int main(void){}
";

#[test]
fn knows_constants(rt: HostRuntime) -> Result<(), Fail> {
    agree(&rt, rt.alloc(), ROWS)?;
    first_wins(&rt, rt.alloc(), ROWS)
}
