//! The texts of the built-in headers.

/// `<stddef.h>` (ISO/IEC 9899:2024, 7.21).
pub const STDDEF: &[u8] = b"#pragma once
typedef unsigned long size_t;
#define NULL ((void*)0)
typedef long ptrdiff_t;
";

/// `<stdbool.h>` (7.19).
pub const STDBOOL: &[u8] = b"#pragma once
#define __bool_true_false_are_defined 1
";

/// `<stdint.h>` (7.22).
pub const STDINT: &[u8] = b"#pragma once
typedef signed char int8_t;
typedef short int16_t;
typedef int int32_t;
typedef long int64_t;
typedef unsigned char uint8_t;
typedef unsigned short uint16_t;
typedef unsigned int uint32_t;
typedef unsigned long uint64_t;
typedef long intmax_t;
typedef unsigned long uintmax_t;
#define INT8_MIN (-128)
#define INT16_MIN (-32768)
#define INT32_MIN (-2147483647-1)
#define INT64_MIN (-9223372036854775807L-1L)
#define INT8_MAX 127
#define INT16_MAX 32767
#define INT32_MAX 2147483647
#define INT64_MAX 9223372036854775807L
#define UINT8_MAX 255
#define UINT16_MAX 65535
#define UINT32_MAX 4294967295U
#define UINT64_MAX 18446744073709551615UL
";

/// `<limits.h>` (7.10).
pub const LIMITS: &[u8] = b"#pragma once
#define CHAR_BIT 8
#define SCHAR_MIN (-128)
#define CHAR_MIN (-128)
#define SCHAR_MAX 127
#define CHAR_MAX 127
#define UCHAR_MAX 255
#define SHRT_MIN (-32768)
#define SHRT_MAX 32767
#define USHRT_MAX 65535
#define INT_MIN (-2147483647-1)
#define INT_MAX 2147483647
#define UINT_MAX 4294967295U
#define LONG_MIN (-9223372036854775807L-1L)
#define LONG_MAX 9223372036854775807L
#define ULONG_MAX 18446744073709551615UL
#define LLONG_MIN (-9223372036854775807LL-1LL)
#define LLONG_MAX 9223372036854775807LL
#define ULLONG_MAX 18446744073709551615ULL
";

/// `<stdlib.h>` (7.24).
pub const STDLIB: &[u8] = b"#pragma once
typedef unsigned long size_t;
#define NULL ((void*)0)
#define EXIT_SUCCESS 0
#define EXIT_FAILURE 1
void * _Owner _Opt malloc(size_t size);
void * _Owner _Opt calloc(size_t count, size_t size);
void free(void * _Owner _Opt block);
void exit(int status);
void abort(void);
int abs(int value);
int atoi(const char *text);
int rand(void);
void srand(unsigned int seed);
";

/// `<stdio.h>` (7.23).
pub const STDIO: &[u8] = b"#pragma once
typedef unsigned long size_t;
#define NULL ((void*)0)
#define EOF (-1)
typedef struct _File FILE;
extern FILE *stdin;
extern FILE *stdout;
extern FILE *stderr;
FILE * _Owner _Opt fopen(const char *name, const char *mode);
int fclose(FILE * _Owner file);
int fgetc(FILE *file);
int fputc(int c, FILE *file);
int fputs(const char *text, FILE *file);
int fprintf(FILE *file, const char *format, ...);
int printf(const char *format, ...);
int snprintf(char *into, size_t size, const char *format, ...);
int getchar(void);
int putchar(int c);
int puts(const char *text);
";

/// `<string.h>` (7.26).
pub const STRING: &[u8] = b"#pragma once
typedef unsigned long size_t;
#define NULL ((void*)0)
size_t strlen(const char *s);
int strcmp(const char *a, const char *b);
int strncmp(const char *a, const char *b, size_t n);
char *strchr(const char *s, int c);
char * _Owner _Opt strdup(const char *s);
void *memcpy(void *to, const void *from, size_t n);
void *memset(void *to, int c, size_t n);
";

/// `<ctype.h>` (7.4).
pub const CTYPE: &[u8] = b"#pragma once
int isalnum(int c);
int isalpha(int c);
int iscntrl(int c);
int isdigit(int c);
int isgraph(int c);
int islower(int c);
int isprint(int c);
int ispunct(int c);
int isspace(int c);
int isupper(int c);
int isxdigit(int c);
int tolower(int c);
int toupper(int c);
";

/// `<assert.h>` (7.2).
pub const ASSERT: &[u8] = b"#undef assert
#ifdef NDEBUG
#define assert(...) ((void)0)
#else
#define assert(...) ((__VA_ARGS__) ? (void)0 : abort())
#endif
void abort(void);
";
