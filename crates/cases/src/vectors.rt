// The vectors of a file. A vector is a line `case NAME`, then the lines of its input, each behind a
// `<`, then the lines that are expected, each behind a `>`, and an empty line at its end.
use anyhow::anyhow;
use std::alloc::Global;

#[derive(Drop)]
pub struct Case {
    pub name: String,
    pub input: String,
    pub expected: String,
}

impl Case {
    fn new(heap: Global) -> Case {
        Case {
            name: String::new(heap),
            input: String::new(heap),
            expected: String::new(heap),
        }
    }
}

fn push_line(text: &mut String, line: &str) -> anyhow::Result<()> {
    text.push_str(line)?;
    text.push('\n')?;
    Ok(())
}

// Adds a line other than an empty one to the vector that it belongs to.
fn add_line(case: &mut Case, line: &str) -> anyhow::Result<()> {
    if let Some(name) = line.strip_prefix("case ") {
        case.name.push_str(name)?;
        return Ok(());
    }
    if let Some(input) = line.strip_prefix('<') {
        return push_line(&mut case.input, input);
    }
    let Some(expected) = line.strip_prefix('>') else {
        return Err(anyhow!("a line of the vectors is neither a name nor behind < or >"));
    };
    push_line(&mut case.expected, expected)
}

pub fn read_cases(heap: Global, text: &str) -> anyhow::Result<Vec<Case>> {
    let mut cases = Vec::new(heap);
    let mut case = Case::new(heap);
    for line in text.lines() {
        if line.is_empty() {
            cases.push(case)?;
            case = Case::new(heap);
        } else {
            add_line(&mut case, line)?;
        }
    }
    Ok(cases)
}
