//! What the codes that a run prints and the rules of the machine mean: a text for each, with an example.
#![tactic(auto)]

ghost use Rattle.std.specs.Prelude.{◌≡◌, ◌⊎◌, ◌<◌, Contains, MatchOption};
ghost use Rattle.reference.specs.Texts.{IsAbout, faults, names, replies, rule_name, system_codes, user_codes};

mod faults;
mod replies;
mod rules_of_storage;
mod rules_of_tasks;
mod system_codes;
mod user_codes;

use faults::JS01;
use faults::JS02;
use faults::JS03;
use faults::JS04;
use faults::JS05;
use faults::JS06;
use faults::JS07;
use faults::JS08;
use faults::JS09;
use replies::NO_CELL;
use replies::NO_NAME;
use replies::NOT_RUN;
use replies::RC_4;
use rules_of_storage::RULE_1;
use rules_of_storage::RULE_2;
use rules_of_storage::RULE_3;
use rules_of_storage::RULE_4;
use rules_of_storage::RULE_5;
use rules_of_storage::RULE_6;
use rules_of_storage::RULE_7;
use rules_of_storage::RULE_8;
use rules_of_storage::RULE_9;
use rules_of_storage::RULE_10;
use rules_of_storage::RULE_11;
use rules_of_storage::RULE_12;
use rules_of_storage::RULE_13;
use rules_of_storage::RULE_14;
use rules_of_storage::RULE_15;
use rules_of_storage::RULE_16;
use rules_of_storage::RULE_17;
use rules_of_storage::RULE_18;
use rules_of_storage::RULE_19;
use rules_of_storage::RULE_20;
use rules_of_storage::RULE_21;
use rules_of_storage::RULE_22;
use rules_of_storage::RULE_23;
use rules_of_storage::RULE_24;
use rules_of_storage::RULE_25;
use rules_of_storage::RULE_26;
use rules_of_storage::RULE_27;
use rules_of_storage::RULE_28;
use rules_of_storage::RULE_29;
use rules_of_storage::RULE_30;
use rules_of_storage::RULE_31;
use rules_of_storage::RULE_32;
use rules_of_storage::RULE_33;
use rules_of_storage::RULE_34;
use rules_of_storage::RULE_35;
use rules_of_storage::RULE_36;
use rules_of_storage::RULE_37;
use rules_of_tasks::RULE_38;
use rules_of_tasks::RULE_39;
use rules_of_tasks::RULE_40;
use rules_of_tasks::RULE_41;
use rules_of_tasks::RULE_42;
use rules_of_tasks::RULE_43;
use rules_of_tasks::RULE_44;
use rules_of_tasks::RULE_45;
use rules_of_tasks::RULE_46;
use rules_of_tasks::RULE_47;
use rules_of_tasks::RULE_48;
use rules_of_tasks::RULE_49;
use rules_of_tasks::RULE_50;
use rules_of_tasks::RULE_51;
use rules_of_tasks::RULE_52;
use rules_of_tasks::RULE_53;
use rules_of_tasks::RULE_54;
use rules_of_tasks::RULE_55;
use rules_of_tasks::RULE_56;
use rules_of_tasks::RULE_57;
use rules_of_tasks::RULE_58;
use rules_of_tasks::RULE_59;
use rules_of_tasks::RULE_60;
use rules_of_tasks::RULE_61;
use rules_of_tasks::RULE_62;
use rules_of_tasks::RULE_63;
use rules_of_tasks::RULE_64;
use rules_of_tasks::RULE_65;
use rules_of_tasks::RULE_66;
use rules_of_tasks::RULE_67;
use rules_of_tasks::RULE_68;
use rules_of_tasks::RULE_69;
use rules_of_tasks::RULE_70;
use rules_of_tasks::RULE_71;
use rules_of_tasks::RULE_72;
use rules_of_tasks::RULE_73;
use rules_of_tasks::RULE_74;
use system_codes::S0C4;
use system_codes::S80A;
use system_codes::S90A;
use system_codes::S804;
use system_codes::S878;
use system_codes::S905;
use system_codes::S978;
use system_codes::SA0A;
use system_codes::SA03;
use system_codes::SA05;
use system_codes::SA78;
use system_codes::SB0A;
use system_codes::SB04;
use system_codes::SB05;
use system_codes::SB78;
use user_codes::U4001;
use user_codes::U4002;
use user_codes::U4003;
use user_codes::U4005;
use user_codes::U4006;
use user_codes::U4007;
use user_codes::U4008;
use user_codes::U4009;

// Returns the text of a system code.
fn system_code(name: &str) -> Option<&'static str>
    ensures { MatchOption result (Contains system_codes name.now → ⊥)
        (λ text. Contains system_codes name.now × IsAbout name.now text.now) }
{
    Some(match name {
        "S804" => S804,
        "S80A" => S80A,
        "S878" => S878,
        "SB04" => SB04,
        "SB05" => SB05,
        "SB0A" => SB0A,
        "SB78" => SB78,
        "S905" => S905,
        "S90A" => S90A,
        "S978" => S978,
        "SA05" => SA05,
        "SA0A" => SA0A,
        "SA78" => SA78,
        "S0C4" => S0C4,
        "SA03" => SA03,
        _ => return None,
    })
}

// Returns the text of a user code.
fn user_code(name: &str) -> Option<&'static str>
    ensures { MatchOption result (Contains user_codes name.now → ⊥)
        (λ text. Contains user_codes name.now × IsAbout name.now text.now) }
{
    Some(match name {
        "U4001" => U4001,
        "U4002" => U4002,
        "U4003" => U4003,
        "U4005" => U4005,
        "U4006" => U4006,
        "U4007" => U4007,
        "U4008" => U4008,
        "U4009" => U4009,
        _ => return None,
    })
}

// Returns the text of a fault.
fn fault(name: &str) -> Option<&'static str>
    ensures { MatchOption result (Contains faults name.now → ⊥)
        (λ text. Contains faults name.now × IsAbout name.now text.now) }
{
    Some(match name {
        "JS01" => JS01,
        "JS02" => JS02,
        "JS03" => JS03,
        "JS04" => JS04,
        "JS05" => JS05,
        "JS06" => JS06,
        "JS07" => JS07,
        "JS08" => JS08,
        "JS09" => JS09,
        _ => return None,
    })
}

// Returns the text of a reply.
fn reply(name: &str) -> Option<&'static str>
    ensures { MatchOption result (Contains replies name.now → ⊥)
        (λ text. Contains replies name.now × IsAbout name.now text.now) }
{
    Some(match name {
        "RC 4" => RC_4,
        "NO CELL" => NO_CELL,
        "NOT RUN" => NOT_RUN,
        "NO NAME" => NO_NAME,
        _ => return None,
    })
}

/// Returns the text of a code that a run can print: an abend code such as `S878` or `U4001`, a fault such as `JS03`, or one of the
/// replies `RC 4`, `NO CELL`, `NOT RUN` and `NO NAME`.
pub fn code(name: &str) -> Option<&'static str>
    ensures { MatchOption result (Contains names name.now → ⊥)
        (λ text. Contains names name.now × IsAbout name.now text.now) }
{
    system_code(name)
        .or(user_code(name))
        .or(fault(name))
        .or(reply(name))
}

// Returns the text of a rule of storage.
fn storage_rule(number: u32) -> Option<&'static str>
    ensures { MatchOption result ((number ≡ 0) ⊎ (37 < number)) (λ text. IsAbout (rule_name number) text.now) }
{
    Some(match number {
        1 => RULE_1,
        2 => RULE_2,
        3 => RULE_3,
        4 => RULE_4,
        5 => RULE_5,
        6 => RULE_6,
        7 => RULE_7,
        8 => RULE_8,
        9 => RULE_9,
        10 => RULE_10,
        11 => RULE_11,
        12 => RULE_12,
        13 => RULE_13,
        14 => RULE_14,
        15 => RULE_15,
        16 => RULE_16,
        17 => RULE_17,
        18 => RULE_18,
        19 => RULE_19,
        20 => RULE_20,
        21 => RULE_21,
        22 => RULE_22,
        23 => RULE_23,
        24 => RULE_24,
        25 => RULE_25,
        26 => RULE_26,
        27 => RULE_27,
        28 => RULE_28,
        29 => RULE_29,
        30 => RULE_30,
        31 => RULE_31,
        32 => RULE_32,
        33 => RULE_33,
        34 => RULE_34,
        35 => RULE_35,
        36 => RULE_36,
        37 => RULE_37,
        _ => return None,
    })
}

// Returns the text of a rule of access, tasks, cell pools, steps or statements.
fn task_rule(number: u32) -> Option<&'static str>
    ensures { MatchOption result ((number < 38) ⊎ (74 < number)) (λ text. IsAbout (rule_name number) text.now) }
{
    Some(match number {
        38 => RULE_38,
        39 => RULE_39,
        40 => RULE_40,
        41 => RULE_41,
        42 => RULE_42,
        43 => RULE_43,
        44 => RULE_44,
        45 => RULE_45,
        46 => RULE_46,
        47 => RULE_47,
        48 => RULE_48,
        49 => RULE_49,
        50 => RULE_50,
        51 => RULE_51,
        52 => RULE_52,
        53 => RULE_53,
        54 => RULE_54,
        55 => RULE_55,
        56 => RULE_56,
        57 => RULE_57,
        58 => RULE_58,
        59 => RULE_59,
        60 => RULE_60,
        61 => RULE_61,
        62 => RULE_62,
        63 => RULE_63,
        64 => RULE_64,
        65 => RULE_65,
        66 => RULE_66,
        67 => RULE_67,
        68 => RULE_68,
        69 => RULE_69,
        70 => RULE_70,
        71 => RULE_71,
        72 => RULE_72,
        73 => RULE_73,
        74 => RULE_74,
        _ => return None,
    })
}

/// Returns the text of a rule of the machine, by its number from 1 to 74.
pub fn rule(number: u32) -> Option<&'static str>
    ensures { MatchOption result ((number ≡ 0) ⊎ (74 < number)) (λ text. IsAbout (rule_name number) text.now) }
{
    storage_rule(number).or(task_rule(number))
}
