//! Programs with the library functions that they are given.

use ob_lexer::lex;
use ob_parser::parse;
use ob_prelude::complete;
use ob_tree_texts::{Shown, show_program};
use std::alloc::{AllocError, Global};
use std::test::Fail;

const LIMIT: usize = 1_048_576;

const TEXTS: [&str; 11] = [
    "size_t strlen(char *s){size_t n;n=0;while(s[n])n=n+1;return n;}",
    "char *strcpy(char *d,char *s){size_t n;n=0;while((d[n]=s[n]))n=n+1;return d;}",
    "char *strcat(char *d,char *s){size_t i;size_t n;i=0;while(d[i])i=i+1;n=0;while((d[i+n]=s[n]))n=n+1;return d;}",
    "int strcmp(char *a,char *b){size_t n;n=0;while(a[n]&&a[n]==b[n])n=n+1;return (unsigned char)a[n]-(unsigned char)b[n];}",
    "void *memset(void *p,int c,size_t n){char *d;size_t i;d=p;for(i=0;i<n;i=i+1)d[i]=c;return p;}",
    "void *memcpy(void *p,void *q,size_t n){char *d;char *s;size_t i;d=p;s=q;for(i=0;i<n;i=i+1)d[i]=s[i];return p;}",
    "int puts(char *s){size_t n;n=0;while(s[n]){putchar(s[n]);n=n+1;}putchar(10);return 0;}",
    "int atoi(char *s){int n;int g;size_t i;i=0;while(s[i]==32||(s[i]>=9&&s[i]<=13))i=i+1;g=0;if(s[i]==45){g=1;i=i+1;}else if(s[i]==43)i=i+1;n=0;while(s[i]>=48&&s[i]<=57){n=n*10+(s[i]-48);i=i+1;}return g?0-n:n;}",
    "int __print_u(unsigned long v,unsigned long b){char d[24];int n;int k;n=0;do{d[n]=\"0123456789abcdef\"[v%b];n=n+1;v=v/b;}while(v!=0);k=n;while(k>0){k=k-1;putchar(d[k]);}return n;}",
    "int __print_d(long v){if(v<0){putchar(45);return __print_u(0-(unsigned long)v,10)+1;}return __print_u(v,10);}",
    "int __print_s(char *s){int n;n=0;while(s[n]){putchar(s[n]);n=n+1;}return n;}",
];

/// Programs, each with the numbers of the texts that it is given.
const ROWS: [(&str, &[usize]); 26] = [
    ("int main(void){return 0;}", &[]),
    ("int main(void){return strlen(\"a\");}", &[0]),
    ("char *f(char *d){return strcpy(d,d);}", &[1]),
    ("char *f(char *d){if(d)return strcat(d,d);return d;}", &[2]),
    ("int f(char *d){while(strcmp(d,d))d=d+1;return 0;}", &[3]),
    ("void f(char *d){{for(;;memset(d,0,1));}}", &[4]),
    ("void f(char *d){do ;while(memcpy(d,d,1));}", &[5]),
    ("int main(void){puts(\"a\");return 0;}", &[6]),
    ("int main(void){int n=atoi(\"7\");return n;}", &[7]),
    ("int main(void){__print_u(1,2);}", &[8]),
    ("int main(void){__print_d(1);}", &[8, 9]),
    ("int main(void){__print_s(\"\");}", &[10]),
    (
        "int strlen(char *s){return 1;}int main(void){return strlen(\"a\");}",
        &[],
    ),
    (
        "size_t strlen(char *s);int main(void){return strlen(\"a\");}",
        &[0],
    ),
    ("size_t strlen(char *s);int main(void){return 0;}", &[]),
    (
        "int __print_u(int v,int b){return 0;}int main(void){__print_d(1);}",
        &[9],
    ),
    (
        "int __print_d(long v){return 0;}int main(void){__print_d(1);}",
        &[],
    ),
    ("int main(void){int strlen;return strlen;}", &[]),
    ("int a[]={1,{atoi(\"2\")}};", &[7]),
    ("int f(int a[strlen(\"b\")]);", &[0]),
    ("int main(void){return sizeof(char[strlen(\"a\")]);}", &[0]),
    ("int main(void){return sizeof strlen(\"a\");}", &[0]),
    ("struct s{char a[sizeof(atoi(\"1\"))];}x;", &[7]),
    (
        "static int puts(char *s){return 1;}int main(void){return puts(\"a\");}",
        &[],
    ),
    ("int puts;int main(void){return puts(\"a\");}", &[6]),
    (
        "int main(void){puts(strcat(0,0));return (atoi(\"1\")?strlen:0)+__print_d(strcmp(0,0));}",
        &[2, 3, 6, 7, 8, 9],
    ),
];

fn answer(alloc: Global, source: &str, completed: bool) -> Result<String, AllocError> {
    let mut shown = Shown::new(alloc, false);
    let bytes = source.as_bytes();
    if bytes.len() > LIMIT {
        return Ok(shown.text);
    }
    let Ok(tokens) = lex(alloc, bytes) else {
        return Ok(shown.text);
    };
    let Ok(program) = parse(alloc, &tokens) else {
        return Ok(shown.text);
    };
    if !completed {
        show_program(&mut shown, &program)?;
        return Ok(shown.text);
    }
    if let Ok(program) = complete(alloc, program) {
        show_program(&mut shown, &program)?;
    }
    Ok(shown.text)
}

/// The program with the texts of these numbers behind it.
fn with_texts(alloc: Global, source: &str, numbers: &[usize]) -> Result<String, AllocError> {
    let mut text = String::from_str(alloc, source)?;
    for number in numbers {
        if *number < 11 {
            text.push_str(TEXTS[*number])?;
        }
    }
    Ok(text)
}

#[test]
fn gives_what_is_called(rt: HostRuntime) -> Result<(), Fail> {
    for (source, numbers) in &ROWS {
        let wanted = with_texts(rt.alloc(), source, numbers)?;
        let wanted = answer(rt.alloc(), wanted.as_str(), false)?;
        let found = answer(rt.alloc(), source, true)?;
        assert!(rt; !found.as_str().is_empty(), "{source}");
        assert_eq!(rt; found.as_str(), wanted.as_str(), "{source}");
    }
    Ok(())
}
