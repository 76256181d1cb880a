//! Names: what is declared where, what hides what, and what stands twice in a scope.

use super::{agree, first_wins};
use std::test::Fail;

const ROWS: &str = "\
ok:int main(void){return 0;}
7 Unknown:int main(void){return x;}
6 Unknown:int main(void){x=1;}
3 Unknown:int a=b;int b;int main(void){}
7 Unknown:int main(void){return f();}int f(void){return 0;}
ok:int f(void);int main(void){return f();}int f(void){return 0;}
ok:int f(int n){return n?f(n-1):0;}int main(void){return f(3);}
ok:int main(void){int x=x;}
ok:int main(void){int x=sizeof x;}
10 Unknown:int main(void){int a[sizeof a];}
ok:char x[9];int main(void){int x[sizeof x==9?1:-1];}
12 Unknown:int main(void){{int x;}return x;}
25 Unknown:int main(void){for(int i=0;i<1;i=i+1);return i;}
ok:int main(void){for(int i=0;i<1;i++){int i;i=2;}}
10 Twice:int main(void){int x;int x;}
9 Twice:int main(void){int x,x;}
ok:int main(void){int x;{int x;x=1;}x=2;}
11 Twice:int main(void){static int x;int x;}
8 Twice:int f(int x){int x;return 0;}int main(void){}
ok:int f(int x){{int x;x=1;}return x;}int main(void){}
7 Twice:int f(int x,int x);int main(void){}
7 Twice:int f(int x,char x){return 0;}int main(void){}
ok:int f(int x),g(int x);int main(void){}
4 Twice:int x;int x;int main(void){}
4 Twice:int x;char x;int main(void){}
6 Twice:int x=1;int x;int main(void){}
7 Twice:int f(void);int f;int main(void){}
4 Twice:int f;int f(void);int main(void){}
6 Twice:int f(void),f;int main(void){}
ok:int f(void);int f();int f(){return 0;}int f(void);int main(void){return f();}
7 Twice:int f(int);int f(void);int main(void){}
7 Twice:int f(int);char f(int);int main(void){}
7 Twice:int f(int);int f(unsigned);int main(void){}
7 Twice:int f(int);int f(int,int);int main(void){}
7 Twice:int f(int);int f(unsigned n){return 0;}int main(void){}
ok:int f(long);int f(long int a);int f(signed long);int main(void){}
7 Twice:int f(long);int f(long long);int main(void){}
7 Twice:int f(char);int f(signed char);int main(void){}
7 Twice:int f(short);int f(int);int main(void){}
ok:int f(size_t);int f(unsigned long);int main(void){}
7 Twice:int f(size_t);int f(unsigned long long);int main(void){}
ok:int f(int*);int f(int[]);int f(int[3]);int f(int a[4]);int main(void){}
ok:int f(int[][2]);int f(int[5][2]);int main(void){}
12 Twice:int f(int[][2]);int f(int[][3]);int main(void){}
8 Twice:int f(int*);int f(char*);int main(void){}
8 Twice:int f(int*);int f(int**);int main(void){}
9 Twice:void*f(void);int*f(void);int main(void){}
11 Twice:int f(void){return 0;}int f(void){return 0;}int main(void){}
8 Twice:int main(void){}int main(void){}
1 Twice:int getchar(void){return 0;}int main(void){}
1 Twice:int putchar(int c){return c;}int main(void){}
2 Twice:void*malloc(size_t n){return 0;}int main(void){}
2 Twice:void*calloc(size_t n,size_t m){return 0;}int main(void){}
1 Twice:void free(void*p){}int main(void){}
1 Twice:void exit(int n){}int main(void){}
ok:int getchar(void);int putchar(int);void*malloc(size_t);void*calloc(size_t,size_t);void free(void*);void exit(int);int main(void){}
1 Twice:int getchar(int);int main(void){}
1 Twice:char putchar(int);int main(void){}
2 Twice:void*malloc(int);int main(void){}
2 Twice:void*calloc(size_t);int main(void){}
1 Twice:void free(char*);int main(void){}
1 Twice:int exit;int main(void){}
ok:int main(void){int malloc;malloc=1;return malloc;}
9 NotFunction:int main(void){int getchar;getchar();}
ok:int f(int free){return free;}int main(void){}
ok:struct x{int x;};int x;int main(void){struct x x;x.x=1;return x.x;}
ok:struct f{int a;};int f(void){return 0;}int main(void){return f();}
7 Twice:struct s{int a;int a;};int main(void){}
7 Twice:struct s{int a,*a;};int main(void){}
ok:struct s{int a;struct{int a;}b;};int main(void){}
ok:int x;int f(char*x){return *x;}int main(void){}
12 Operand:int*x;int f(int x){return *x;}int main(void){}
ok:int*x;int main(void){{int x;x=1;}return *x;}
15 Operand:int*x;int main(void){{int x;return *x;}}
18 Unknown:int f(int y){return y;}int main(void){return y;}
14 Unknown:int f(int y);int g(void){return y;}int main(void){}
ok:int f(int n,int a[sizeof n]){return a[0];}int main(void){}
7 Unknown:int f(int a[sizeof n],int n);int main(void){}
14 Unknown:int f(int a){{int b;}{return b;}}int main(void){}
16 Unknown:int main(void){if(1){int b;}else b=1;}
16 Unknown:int main(void){do{int b=0;}while(b);}
ok:int f;int main(void){int f=1;{char*f;f=0;}return f;}
ok:int main(void){int main;main=1;return main;}
";

#[test]
fn finds_names(rt: HostRuntime) -> Result<(), Fail> {
    agree(&rt, rt.alloc(), ROWS)?;
    first_wins(&rt, rt.alloc(), ROWS)
}
