//! Sizes: array lengths, the greatest type, layout, `sizeof`, and types without a size.

use super::{agree, first_wins};
use std::test::Fail;

const ROWS: &str = "\
3 Constant:int a[0];int main(void){}
ok:int a[1];int main(void){}
3 Constant:int a[-1];int main(void){}
9 Constant:int main(void){int a[0];}
ok:int main(void){int a[1];}
6 Constant:struct s{int a[0];};int main(void){}
6 Constant:int f(int a[0]);int main(void){}
ok:int f(int a[1]);int main(void){}
8 Constant:int f(int a[][0]);int main(void){}
11 Constant:int main(void){return sizeof(int[0]);}
6 Constant:int n;int a[n];int main(void){}
14 Constant:int main(void){int n=1;int a[n];}
9 Constant:int f(int n,int a[n]){return 0;}int main(void){}
ok:char a[4194303];int main(void){}
Statics:char a[4194304];int main(void){}
1 Constant:char a[4194305];int main(void){}
Statics:int a[1048576];int main(void){}
1 Constant:int a[1048577];int main(void){}
ok:int main(void){char a[2048][2048];}
Statics:char a[2048][2048];int main(void){}
1 Constant:char a[2048][2049];int main(void){}
1 Constant:char a[2049][2048];int main(void){}
Statics:char*a[524288];int main(void){}
2 Constant:char*a[524289];int main(void){}
ok:struct s{char a[4194304];};int main(void){}
4 Constant:struct s{char a[4194305];};int main(void){}
1 Constant:struct s{char a[4194304];char b;};int main(void){}
0 Constant:struct{char a[4194304];char b;}x;int main(void){}
ok:struct s{char a[4194303];char b;};int main(void){}
ok:struct s{char a[4194297];int b;};int main(void){}
1 Constant:struct s{char a[4194301];int b;};int main(void){}
ok:struct s{int b;char a[4194300];};int main(void){}
1 Constant:struct s{int b;char a[4194301];};int main(void){}
ok:struct s{long b;char a[4194290];};int main(void){}
1 Constant:struct s{long b;char a[4194297];};int main(void){}
ok:int main(void){struct s{char a[2097152];}x[2];}
Statics:struct s{char a[2097152];}x[2];int main(void){}
10 Constant:struct s{char a[2097153];}x[2];int main(void){}
18 Constant:int main(void){struct s{struct{char a[4194304];}b[2];};}
ok:int main(void){return sizeof(char[4194304])==4194304;}
7 Constant:int main(void){return sizeof(char[4194305]);}
4 Constant:int f(char a[][4194305]);int main(void){}
3 Constant:int f(char[][4194305]);int main(void){}
ok:int f(char a[][4194304]);int main(void){}
ok:int f(char a[5000000]);int main(void){}
7 Constant:int main(void){char a[4194305];}
8 Constant:int main(void){static char a[4194305];}
1 Constant:char a[4294967296];int main(void){}
1 Constant:char a[9223372036854775807][2];int main(void){}
1 Constant:char a[18446744073709551615U];int main(void){}
1 Constant:int a[4611686018427387905];int main(void){}
1 Constant:char a[4194304][4398046511104];int main(void){}
3 Constant:int a[0][x];int main(void){}
6 Unknown:int a[1][x];int main(void){}
6 Constant:int a[1][0];int main(void){}
ok:struct s{char c;int i;short s;};int a[sizeof(struct s)==12?1:-1];int main(void){}
17 Constant:struct s{char c;int i;short s;};int a[sizeof(struct s)==8?1:-1];int main(void){}
ok:int a[sizeof(struct{char a;})==1&&sizeof(struct{char a;short b;})==4&&sizeof(struct{char a;long b;char c;})==24?1:-1];int main(void){}
ok:int a[sizeof(struct{char a;void*p;})==16&&sizeof(struct{char a[3];short b;})==6&&sizeof(struct{int a;char b;})==8?1:-1];int main(void){}
ok:int a[sizeof(struct{struct{char a;int b;}c;char d;})==12&&sizeof(struct{char a;struct{long b;}c;})==16?1:-1];int main(void){}
ok:int a[sizeof(struct{char a;struct{char b[3];}c[2];short d;})==10?1:-1];int main(void){}
ok:int a[sizeof(char)==1&&sizeof(short)==2&&sizeof(int)==4&&sizeof(long)==8&&sizeof(long long)==8&&sizeof(size_t)==8&&sizeof(void*)==8?1:-1];int main(void){}
ok:int a[sizeof(signed char)==1&&sizeof(unsigned char)==1&&sizeof(unsigned short)==2&&sizeof(unsigned)==4&&sizeof(unsigned long long)==8?1:-1];int main(void){}
ok:int a[sizeof(int[3])==12&&sizeof(int*[3])==24&&sizeof(int[2][3])==24&&sizeof \"abc\"==4&&sizeof \"\"==1&&sizeof 'a'==4?1:-1];int main(void){}
ok:int x[3];int a[sizeof x==12&&sizeof&x==8&&sizeof(x+0)==8&&sizeof(\"abc\"+0)==8&&sizeof(1,x)==8&&sizeof x[0]==4?1:-1];int main(void){}
ok:char c;long l;int a[sizeof(c+c)==4&&sizeof+c==4&&sizeof-c==4&&sizeof~c==4&&sizeof!l==4&&sizeof(l<c)==4&&sizeof(c<<l)==4&&sizeof(l<<c)==8?1:-1];int main(void){}
ok:char c;long l;int a[sizeof(c,c)==1&&sizeof(c=l)==1&&sizeof c++==1&&sizeof--c==1&&sizeof(c+=l)==1&&sizeof(1?c:c)==4&&sizeof(1?c:l)==8&&sizeof(c&&l)==4?1:-1];int main(void){}
ok:char c;int*p;int a[sizeof sizeof c==8&&sizeof(p-p)==8&&sizeof(p==p)==4&&sizeof*p==4&&sizeof(c)==1&&sizeof(int)==4?1:-1];int main(void){}
7 Incomplete:int main(void){return sizeof(void);}
14 Incomplete:void f(void){}int main(void){return sizeof f();}
7 Incomplete:int main(void){return sizeof(struct s);}
7 Incomplete:int main(void){return sizeof(void[2]);}
12 Operand:void*v;int main(void){return sizeof*v;}
14 NotFunction:int f(void);int main(void){return sizeof f;}
1 Incomplete:void x;int main(void){}
7 Incomplete:int main(void){void x;}
8 Incomplete:int main(void){static void x;}
1 Incomplete:void a[2];int main(void){}
4 Incomplete:int f(void x);int main(void){}
5 Incomplete:int f(int,void);int main(void){}
3 Incomplete:int f(void,int);int main(void){}
ok:void*x;void f(void*);int main(void){}
ok:int f(void*a[2]);int main(void){}
13 Incomplete:struct s{int a;};int f(struct s x);int main(void){}
11 Incomplete:struct s{int a;};int f(struct s);int main(void){}
10 Incomplete:struct s{int a;};struct s f(void);int main(void){}
2 Incomplete:struct s f(void);int main(void){}
10 Incomplete:struct s{int a;};struct s f(void){}int main(void){}
ok:struct s{int a;};struct s*f(struct s*x);int main(void){}
4 Twice:int x;void x;int main(void){}
5 Incomplete:struct t;struct t a[5000000];int main(void){}
8 Incomplete:struct t;int f(struct t x);int main(void){}
";

#[test]
fn knows_sizes(rt: HostRuntime) -> Result<(), Fail> {
    agree(&rt, rt.alloc(), ROWS)?;
    first_wins(&rt, rt.alloc(), ROWS)
}
