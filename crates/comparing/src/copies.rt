// Copies of a sheet, since a register takes its sheet.
use sheet::row::Rule;
use sheet::sheet::Sheet;
use std::alloc::Global;
use std::io;

// Adds rules one after another.
fn add_rules(sheet: &mut Sheet, rules: &[Rule]) {
    for rule in rules {
        let _ = sheet.add_rule(*rule);
    }
}

// A sheet with the same rows and rules.
pub(crate) fn same_sheet(heap: Global, sheet: &Sheet) -> io::Result<Sheet> {
    let mut copy = Sheet::new(heap)?;
    for row in sheet.rows() {
        let _ = copy.add_row(*row);
    }
    add_rules(&mut copy, sheet.rules());
    Ok(copy)
}
