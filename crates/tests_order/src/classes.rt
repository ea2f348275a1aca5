//! Classes of transactions.
use crate::cases::check_cases;
use crate::graphs::{tx, write_client};
use plan_text::read_order_text;
use seq_base::Setting;
use std::alloc::Global;
use std::fmt::Write;
use std::test::Fail;
use tx_class::{Class, Classes, classify};

/// The answers have the count of listed transactions, their clients in ascending order, and the clients of
/// transactions 0 to 4. Then, for each of five clients, the number of lists with its transaction, and the class.
const CLASSES: &str = "\
classes|kept and cut|4 ( 1 2 3 4) 1 2 3 4 -, 2 shaded 4 solid 2 shaded 1 blank 0 blank
no lists||0 () - - - - -, 0 blank 0 blank 0 blank 0 blank 0 blank
";

#[test]
fn classes_are_by_the_count_of_lists(rt: HostRuntime) -> Result<(), Fail> {
    check_cases(rt.alloc(), CLASSES)
}

pub(crate) fn write_classes(answer: &mut String, alloc: Global, text: &str) -> Result<(), Fail> {
    let text = read_order_text(alloc, text.as_bytes())?;
    let classes = classify(alloc, &text.setting, text.lists.as_slice())?;
    write_all(answer, &classes)
}

pub(crate) fn write_no_lists(answer: &mut String, alloc: Global) -> Result<(), Fail> {
    let classes = classify(alloc, &Setting::new(5, 1, 1, 1)?, &[])?;
    write_all(answer, &classes)
}

fn write_all(answer: &mut String, classes: &Classes) -> Result<(), Fail> {
    write_listed(answer, classes)?;
    write_counted(answer, classes)
}

fn write_listed(answer: &mut String, classes: &Classes) -> Result<(), Fail> {
    let count = classes.len();
    write!(answer, "{count} (")?;
    for known in classes.as_slice() {
        write_client(answer, known)?;
    }
    answer.push(')')?;
    for k in 0..5 {
        match classes.tx(k) {
            Some(known) => write_client(answer, &known)?,
            None => answer.push_str(" -")?,
        }
    }
    Ok(())
}

fn write_counted(answer: &mut String, classes: &Classes) -> Result<(), Fail> {
    answer.push(',')?;
    for client in 1..6 {
        let count = classes.count(&tx(client));
        let word = word_of(classes.class(&tx(client)));
        write!(answer, " {count} {word}")?;
    }
    Ok(())
}

fn word_of(class: Class) -> &'static str {
    match class {
        Class::Solid => "solid",
        Class::Shaded => "shaded",
        Class::Blank => "blank",
    }
}
