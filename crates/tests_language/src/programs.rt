//! A program whose typed functions are looked at.
use c_program::program::CProgram;
use c_types::read_program;
use std::process::Abort;
use std::test::Fail;

fn check_functions(rt: &impl Abort, program: &CProgram) {
    assert_eq!(rt; program.functions.len(), 2);
    let parameters = program.functions[0].parameters.len();
    let statements = program.functions[1].body.len();
    assert_eq!(rt; (program.main, parameters, statements), (1, 1, 2));
}

#[test]
fn a_program_has_typed_functions(rt: HostRuntime) -> Result<(), Fail> {
    let text =
        b"#define N 2\nint f(int a[N]){return a[1];}int main(void){int b[N]={1,2};return f(b);}";
    check_functions(&rt, &read_program(rt.alloc(), text)?);
    Ok(())
}
