// Prints the leaves of each file of data/, under the file's name.
#![tactic(auto)]

use std::fs::File;
use std::io;
use std::rt::Files;

// A file's name, and then what the leaf printer writes for the file; for a file that cannot be opened, why, on standard error.
fn print_file(rt: &(impl Files + Print + Eprint), path: &str) -> io::Result<()> {
    let opened = File::open(rt, path);
    match opened {
        Ok(mut file) => {
            println!(rt; "{path}")?;
            print_pages::output::print(&mut file, &mut io::writer(rt))
        }
        Err(error) => eprintln!(rt; "{path}: {error}"),
    }
}

fn main(rt: HostRuntime) -> io::Result<()> {
    print_file(&rt, "empty_list")?;
    print_file(&rt, "dense_levels")?;
    print_file(&rt, "suffixes")?;
    print_file(&rt, "hash_bits")?;
    print_file(&rt, "hash_and_real_bits")?;
    print_file(&rt, "pages")?;
    print_file(&rt, "empty_file")?;
    print_file(&rt, "bytes_left_over")?;
    print_file(&rt, "wrong_version")?;
    print_file(&rt, "spare_bit")?;
    print_file(&rt, "labels_not_ascending")?;
    print_file(&rt, "wrong_rank")?;
    print_file(&rt, "exact_slot")?;
    print_file(&rt, "longest_input")?;
    print_file(&rt, "too_long")
}
