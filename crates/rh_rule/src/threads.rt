//! Rule files and threads.
use crate::rule_file::RuleFile;

fn share<T: Sync>(_value: &T) {}

fn send<T: Send>(_value: &T) {}

/// A law: threads may share rule files and hand them to one another.
pub fn rule_files_cross_threads(file: &RuleFile) {
    share(file);
    send(file);
}
