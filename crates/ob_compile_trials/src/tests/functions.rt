//! Calls, functions that are no values, results, bodies, and the library.

use super::{agree, first_wins};
use std::test::Fail;

const ROWS: &str = "\
ok:int f(int a){return a;}int main(void){return f(1);}
18 Count:int f(int a){return a;}int main(void){return f();}
18 Count:int f(int a){return a;}int main(void){return f(1,2);}
17 Count:int f(void){return 0;}int main(void){return f(1);}
16 Count:int f(){return 0;}int main(void){return f(1);}
15 Count:int f(int,int);int main(void){return f(1);}
6 Count:int main(void){getchar(1);}
6 Count:int main(void){putchar();}
6 Count:int main(void){putchar(1,2);}
6 Count:int main(void){malloc();}
6 Count:int main(void){calloc(1);}
6 Count:int main(void){calloc(1,2,3);}
6 Count:int main(void){free();}
6 Count:int main(void){exit();}
6 Count:int main(void){exit(1,2);}
6 Count:int main(void){strlen();}
6 Count:int main(void){puts(\"a\",\"b\");}
6 Count:int main(void){strcpy(\"a\");}
6 Count:int main(void){memset(\"a\",0);}
ok:int main(void){int*p=malloc(4);p=calloc(1,4);free(p);putchar(getchar());free(\"a\");free(0);exit(1);}
8 Assign:int main(void){free(1);}
8 Assign:int main(void){putchar(NULL);}
8 Assign:int main(void){putchar(\"a\");}
8 Assign:int main(void){malloc(NULL);}
10 Assign:int main(void){calloc(1,\"a\");}
8 Assign:int main(void){exit(\"a\");}
11 Operand:int main(void){return exit(1)+1;}
9 Operand:int main(void){int x=free(0);}
ok:int main(void){char a[9];strcpy(a,\"b\");strcat(a,\"c\");strcmp(a,\"bc\");memset(a,0,9);memcpy(a,\"d\",2);puts(a);return atoi(\"7\")+strlen(a);}
8 Assign:int main(void){strlen(1);}
14 Assign:int main(void){int a[2];strlen(a);}
15 Assign:int main(void){unsigned char a[2];puts(a);}
10 Assign:int main(void){strcpy(\"a\",1);}
8 Assign:int main(void){strcat('a',\"a\");}
10 Assign:int main(void){strcmp(\"a\",&\"a\");}
10 Assign:int main(void){memset(\"a\",NULL,1);}
12 Assign:int main(void){memcpy(\"a\",\"b\",\"c\");}
8 Assign:int main(void){atoi(3);}
ok:int main(void){int a[2];memset(a,0,sizeof a);memcpy(a,a+1,4);char*p=memset(a,1,1);}
9 Assign:int main(void){int x=memset(0,0,0);}
10 Assign:int main(void){int*p=strcpy(0,0);}
ok:int strlen(char*s){return 1;}int main(void){return strlen(\"a\");}
ok:int strlen(int a,int b){return a;}int main(void){return strlen(1,2);}
21 Count:int strlen(int a,int b){return a;}int main(void){return strlen(1);}
23 Assign:int strlen(int a,int b){return a;}int main(void){return strlen(\"a\");}
ok:size_t strlen(char*s);int main(void){return strlen(\"a\");}
1 Twice:int strlen(char*s);int main(void){return strlen(\"a\");}
ok:int strlen(char*s);int main(void){}
1 Twice:int puts;int main(void){return puts(\"a\");}
ok:int puts;int main(void){return puts;}
6 Unknown:int main(void){strlen;}
12 NotFunction:int main(void){strlen(\"a\");return strlen;}
ok:int main(void){int strlen;return strlen;}
ok:int main(void){puts(\"a\");{int puts;puts=1;}}
9 NotFunction:int main(void){int puts;puts(\"a\");}
ok:int main(void){return sizeof strlen(\"a\");}
31 NoBody:int strlen(char*s);int main(void){return 0;}int f(void);int g(void){return f();}
ok:static int f(void){return 0;}static int x;int main(void){return f()+x;}
21 Assign:int f(char*p){return 0;}int main(void){return f(1);}
26 Assign:int f(int a,int*b){return 0;}int main(void){return f(1,2);}
20 Assign:int f(int a){return a;}int main(void){return f(NULL,1);}
25 Assign:int f(int*a,int*b){return 0;}int main(void){return f(1,2);}
6 Unknown:int main(void){g();}
8 Unknown:int main(void){g(x);}
22 Unknown:int f(int a){return a;}int main(void){return f(1,x);}
29 Operand:void v(void){}int f(int*a,int b){return 0;}int main(void){return f(1,v());}
16 Operand:void f(void){}int x;int main(void){x(f());}
9 NotFunction:int x;int main(void){x();}
9 NotFunction:int x;int main(void){x(1);}
10 NotFunction:int*x;int main(void){x();}
15 NotFunction:struct s{int a;}x;int main(void){x();}
8 NotFunction:int f(int x){return x();}int main(void){}
13 NotFunction:int f(void);int main(void){return f;}
12 NotFunction:int f(void);int main(void){f;}
14 NotFunction:int f(void);int main(void){if(f);}
12 NotFunction:int f(void);int main(void){f+1;}
15 NotFunction:int f(void);int main(void){1+(f);}
13 NotFunction:int f(void);int main(void){*f;}
12 NotFunction:int f(void);int main(void){f==0;}
12 NotFunction:int f(void);int main(void){f[0];}
12 NotFunction:int f(void);int main(void){f.a;}
15 NotFunction:int f(void);int main(void){int x=f;}
9 NotFunction:int f(void);int x=f;int main(void){}
20 NotFunction:int f(int a){return a;}int main(void){return f(f);}
8 NotFunction:int main(void){putchar(getchar);}
20 NotFunction:int f(void){return 0;}int main(void){int f;return f();}
ok:int main(void){return main();}
13 NoBody:int f(void);int main(void){return f();}
13 NoBody:int f(void);int main(void){return f()+f();}
23 NoBody:int f(void);int g(void);int main(void){g();return f();}int g(void){return 0;}
ok:int f(void);int main(void){return 0;}
14 NoBody:int f(void);int main(void){return sizeof f();}
14 NoBody:int f(void);int main(void){0&&f();}
13 NoBody:int f(int);int main(void){return f(f(1));}
19 NoBody:int f(int);int g(int);int main(void){return f(g(1));}
19 NoBody:int f(void);int g(void);int main(void){return g()+f();}
10 NoBody:int f(void);int a[sizeof f()];int main(void){}
13 NoBody:int f(void);int g(void){return f();}
1 NoBody:void main(void){}int f(void);int g(void){return f();}
4294967295 NoBody:int x;
4294967295 NoBody:int f(void){return 0;}
4294967295 NoBody:struct main{int main;};
4294967295 NoBody:int f(void){int main;main=1;return main;}
1 NoBody:void main(void){}
1 NoBody:int main(int x){return 0;}
1 NoBody:int main(int x,char**y){return 0;}
1 NoBody:int main(void);
1 NoBody:int main;
2 NoBody:int*main(void){return 0;}
1 NoBody:char main(void){return 0;}
1 NoBody:unsigned main(void){return 0;}
1 NoBody:long main(){return 0;}
1 NoBody:int main(void);int f(void){return main();}
ok:int main();int main(void){return 0;}
ok:int main(void){}int main();
ok:int main(){return 0;}
ok:static int main(void){return 0;}
3 NoBody:int x,main,y;
16 Unknown:int f(void);int main(void){f();x;}
25 Unknown:int f(void);int main(void){return f();}int g(void){return x;}
6 Unknown:void main(void){x;}
7 Assign:int f(void){return NULL;}int main(void){}
8 Assign:char*f(void){return &1[\"a\"]+0==0;}int main(void){}
ok:int f(void){return 'a';}char g(void){return 300;}void*h(void){return \"a\";}char*i(void*p){return p;}int main(void){}
8 Assign:int*f(void){return \"a\";}int main(void){}
6 Jump:int f(void){return;}int main(void){}
7 Jump:int*f(void){return;}int main(void){}
6 Jump:void f(void){return 1;}int main(void){}
6 Jump:void f(void){return NULL;}int main(void){}
7 Unknown:void f(void){return x;}int main(void){}
16 Operand:struct s{int a;}x;void f(void){return x;}int main(void){}
ok:void f(void){return;}int g(void){}int main(void){}
ok:int f(int,char*,int[]);int f(int a,char*b,int*c){return c[a];}int main(void){return f(1,\"a\",0);}
";

#[test]
fn judges_functions(rt: HostRuntime) -> Result<(), Fail> {
    agree(&rt, rt.alloc(), ROWS)?;
    first_wins(&rt, rt.alloc(), ROWS)
}
