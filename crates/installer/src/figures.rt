// Figures of two registers, side by side.
use register::register::Register;
use std::io;

// Prints a rule's figures of one register, on one line.
fn show_figures(rt: &HostRuntime, name: &str, register: &Register, rule: usize) -> io::Result<()> {
    let Ok(told) = register.read(rule) else {
        return println!(rt; "rule {rule}: there is no such rule");
    };
    let f = told.figures;
    print!(rt;
        "  {name}: both {} act {} tgt {} none {}",
        f.both, f.act, f.tgt, f.none
    )?;
    print!(rt; " triggered {} degrees {}", f.triggered, f.degrees)?;
    if let Some((met, all)) = told.confidence {
        print!(rt; " confidence {met} of {all}")?;
    }
    println!(rt; "")
}

// Prints the figures of each rule, first of one register and then of the other.
pub(crate) fn show_side_by_side(
    rt: &HostRuntime,
    first: &Register,
    second: &Register,
    rules: usize,
) -> io::Result<()> {
    for rule in 0..rules {
        println!(rt; "rule {rule}")?;
        show_figures(rt, "as it was noted", first, rule)?;
        show_figures(rt, "from the end   ", second, rule)?;
    }
    Ok(())
}
