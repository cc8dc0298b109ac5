//! Two uses of the store: documents that meet in memory, and documents in files.
#![tactic(auto)]

use rds_store::{Document, DocumentFile, Fault, create_file};
use std::alloc::Global;
use std::{fs, io};

/// Two replicas are edited apart, and the store takes what it lacks of the shop.
fn in_memory(alloc: Global) -> Result<String, Fault> {
    let mut shop = replica(alloc, 0)?;
    let mut store = replica(alloc, 1)?;
    shop.edit_line("[\"add\",\"apples/tags\",\"red\"]")?;
    store.edit_line("[\"inc\",\"apples\",10]")?;
    pull(&shop, &mut store)?;
    store.view_json("")
}

/// An empty replica of the group, with this number.
fn replica(alloc: Global, own: u8) -> Result<Document, Fault> {
    Document::new(alloc, "inventory", &["shop", "store"], own)
}

/// One document takes what it lacks of another. The question and the answer are bytes, which anything may carry.
fn pull(from: &Document, to: &mut Document) -> Result<(), Fault> {
    let question = to.ask()?;
    let answer = from.answer(&question)?;
    to.take(&question, &answer)?;
    Ok(())
}

/// The shop's file is edited and kept, twice under one lock.
fn edit_shop(rt: &HostRuntime) -> Result<(), Fault> {
    let mut shop = DocumentFile::open(rt, "shop.rds")?;
    shop.edit_line("[\"set\",\"apples/price\",3]")?;
    shop.keep(rt)?;
    shop.edit_line("[\"add\",\"apples/tags\",\"ripe\"]")?;
    shop.keep(rt)
}

/// The store's file takes what it lacks of the shop's.
fn sync_store(rt: &HostRuntime) -> Result<String, Fault> {
    let mut store = DocumentFile::open(rt, "store.rds")?;
    let question = store.document().ask()?;
    let answer = answer_of(rt, "shop.rds", &question)?;
    store.take(&question, &answer)?;
    store.keep(rt)?;
    store.document().view_json("")
}

/// What the document of a file answers.
fn answer_of(rt: &HostRuntime, path: &str, question: &[u8]) -> Result<Vec<u8>, Fault> {
    DocumentFile::open(rt, path)?.document().answer(question)
}

/// Makes the files of the two replicas.
fn make_files(rt: &HostRuntime) -> Result<(), Fault> {
    create_file(rt, "shop.rds", replica(rt.alloc(), 0)?)?;
    create_file(rt, "store.rds", replica(rt.alloc(), 1)?)?;
    Ok(())
}

/// The document of the store's file in the end.
fn in_files(rt: &HostRuntime) -> Result<String, Fault> {
    make_files(rt)?;
    edit_shop(rt)?;
    sync_store(rt)
}

/// Prints a document, or why there is none.
fn print(rt: &HostRuntime, document: Result<String, Fault>) -> io::Result<()> {
    match document {
        Ok(document) => println!(rt; "{document}"),
        Err(fault) => println!(rt; "{fault}"),
    }
}

fn main(rt: HostRuntime) -> io::Result<()> {
    print(&rt, in_memory(rt.alloc()))?;
    print(&rt, in_files(&rt))?;
    fs::remove_file(&rt, "shop.rds")?;
    fs::remove_file(&rt, "store.rds")
}
