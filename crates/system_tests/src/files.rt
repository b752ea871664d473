//! The files of a folder.

use std::alloc::{AllocError, Global};
use std::{fs, io};

/// The names of the files with this ending in the folder that the program was started in, without it and in the order of
/// their bytes.
pub fn names_of(rt: &HostRuntime, alloc: Global, ending: &str) -> io::Result<Vec<String>> {
    let mut names = Vec::new(alloc);
    add_names(rt, alloc, ending, &mut names)?;
    names.sort()?;
    Ok(names)
}

/// Adds the names of the files with this ending, without it.
fn add_names(
    rt: &HostRuntime,
    alloc: Global,
    ending: &str,
    names: &mut Vec<String>,
) -> io::Result<()> {
    for entry in fs::read_dir(rt, ".")? {
        add_name(alloc, entry?.file_name(), ending, names)?;
    }
    Ok(())
}

/// Adds the name of a file without this ending, if it has it.
fn add_name(
    alloc: Global,
    file: &str,
    ending: &str,
    names: &mut Vec<String>,
) -> Result<(), AllocError> {
    if let Some(name) = file.strip_suffix(ending) {
        names.push(String::from_str(alloc, name)?)?;
    }
    Ok(())
}

/// The text of the file of a name and an ending.
pub fn text_of(rt: &HostRuntime, alloc: Global, name: &str, ending: &str) -> io::Result<String> {
    let file = format!(in alloc; "{name}{ending}")?;
    fs::read_to_string(rt, file.as_str())
}
