// Why a file is no plan, by the line of the report.

use crate::shown::Shown;
use std::io;

pub(crate) fn tell_no_plan(rt: &impl Eprint, plan: &str, report: &str) -> io::Result<()> {
    let plan = Shown(plan);
    let line = report.lines().next().unwrap_or("");
    let fault = line.strip_prefix("2 plan ").unwrap_or("");
    let (word, key) = fault.split_once(' ').unwrap_or((fault, ""));
    let key = Shown(key);
    match word {
        "Syntax" => eprintln!(rt; "spill: {plan} is no plan: it is not a TOML document in UTF-8"),
        "MissingKey" => eprintln!(rt; "spill: {plan} is no plan: the key \"{key}\" is missing"),
        "UnknownKey" => eprintln!(rt;
            "spill: {plan} is no plan: the key \"{key}\" is unknown: correct or remove it"
        ),
        "WrongKind" => eprintln!(rt;
            "spill: {plan} is no plan: the value of \"{key}\" is of the wrong kind"
        ),
        "Limit" if key.0 == "plan" => eprintln!(rt;
            "spill: {plan} is no plan: the file has more than 1048576 bytes"
        ),
        "Limit" => eprintln!(rt;
            "spill: {plan} is no plan: the value of \"{key}\" is outside its limits"
        ),
        "UnknownColumn" => eprintln!(rt;
            "spill: {plan} is no plan: \"{key}\" names a column that no \"columns\" has"
        ),
        "KindClash" => eprintln!(rt;
            "spill: {plan} is no plan: \"{key}\" names a column of the wrong kind (int or text)"
        ),
        "Repeated" => eprintln!(rt;
            "spill: {plan} is no plan: \"{key}\" names a column a second time"
        ),
        "SameOutput" => eprintln!(rt;
            "spill: {plan} is no plan: \"{key}\" is also another output or an input: choose another file"
        ),
        "QuotaSum" => eprintln!(rt;
            "spill: {plan} is no plan: its quotas are more than 131072 together: lower some"
        ),
        _ => eprintln!(rt; "spill: {plan} is no plan: the line on standard output says why"),
    }
}
