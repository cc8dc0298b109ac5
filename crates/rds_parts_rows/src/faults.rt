//! Rows on faults: one that is named is answered as what it is, or said in words.
use rds_names::{Fault, Own};
use rds_rows::words::{first, number, small};
use std::alloc::Global;

/// Refuses as the row says.
pub fn answer(name: &str, rest: &str) -> Result<String, Fault> {
    Err(fault(name, rest)?)
}

/// The text of the row's fault.
pub fn shown(alloc: Global, name: &str, rest: &str) -> Result<String, Fault> {
    let fault = fault(name, rest)?;
    Ok(format!(in alloc; "{fault}")?)
}

fn fault(name: &str, rest: &str) -> Result<Fault, Fault> {
    match name {
        "Conflict" => conflict(rest),
        "OwnAhead" => own_ahead(rest),
        _ => of_document(name)
            .or(of_text(name))
            .or(of_program(name))
            .ok_or(Fault::Usage),
    }
}

fn conflict(rest: &str) -> Result<Fault, Fault> {
    let (first, seq) = first(rest);
    let replica = small(first)?;
    let seq = number(seq)?;
    Ok(Fault::Conflict { replica, seq })
}

fn own_ahead(rest: &str) -> Result<Fault, Fault> {
    let (which, amount) = first(rest);
    let amount = number(amount)?;
    match which {
        "seq" => Ok(Fault::OwnAhead(Own::Seq(amount))),
        "plus" => Ok(Fault::OwnAhead(Own::Plus(amount))),
        "minus" => Ok(Fault::OwnAhead(Own::Minus(amount))),
        _ => Err(Fault::Usage),
    }
}

fn of_document(name: &str) -> Option<Fault> {
    match name {
        "Memory" => Some(Fault::Memory),
        "BadName" => Some(Fault::BadName),
        "BadKey" => Some(Fault::BadKey),
        "BadPath" => Some(Fault::BadPath),
        "BadScalar" => Some(Fault::BadScalar),
        "BadRoster" => Some(Fault::BadRoster),
        "SeqFull" => Some(Fault::SeqFull),
        "CounterFull" => Some(Fault::CounterFull),
        _ => None,
    }
}

fn of_text(name: &str) -> Option<Fault> {
    match name {
        "WrongAsker" => Some(Fault::WrongAsker),
        "Cut" => Some(Fault::Cut),
        "Bad" => Some(Fault::Bad),
        "Extra" => Some(Fault::Extra),
        "TooLong" => Some(Fault::TooLong),
        "TooManyDots" => Some(Fault::TooManyDots),
        "BadCertificate" => Some(Fault::BadCertificate),
        "WrongVersion" => Some(Fault::WrongVersion),
        _ => None,
    }
}

fn of_program(name: &str) -> Option<Fault> {
    match name {
        "WrongGroup" => Some(Fault::WrongGroup),
        "WrongRoster" => Some(Fault::WrongRoster),
        "SameReplica" => Some(Fault::SameReplica),
        "OutOfTurn" => Some(Fault::OutOfTurn),
        "PeerEnded" => Some(Fault::PeerEnded),
        "Device" => Some(Fault::Device),
        "BadLine" => Some(Fault::BadLine),
        "NoSuch" => Some(Fault::NoSuch),
        "Usage" => Some(Fault::Usage),
        "Forked" => Some(Fault::Forked),
        "Unsure" => Some(Fault::Unsure),
        _ => None,
    }
}
