// The words of the command line.
ghost use Rattle.std.specs.Prelude.{◌≡◌, ◌↔◌, ◌∷◌, [], IsTrue, IfSome, IfNone, Option, Some, None, List, ℕ, codes, option_map};
ghost use Rattle.pf_tool.specs.Requests.{texts, decrypt_words, encrypt_words, session_words, IsOperand, Sums as SumsOf, Measure as MeasureOf, AskFor, AskForNothing, request_of};

use crate::manifest_words::{Manifest, manifest_of};

/// The words `decrypt -w KEY -i IN`.
#[derive(Drop)]
pub struct Decrypt<'a> {
    /// The name of the key file.
    pub key: &'a str,
    /// The name of the protected file.
    pub input: &'a str,
}

/// The words `encrypt -w KEY -i IN -o OUT`.
#[derive(Drop)]
pub struct Encrypt<'a> {
    /// The name of the key file.
    pub key: &'a str,
    /// The name of the plain file.
    pub input: &'a str,
    /// The name of the protected file that is made.
    pub output: &'a str,
}

/// The words `session -w KEY`.
#[derive(Drop)]
pub struct Session<'a> {
    /// The name of the key file.
    pub key: &'a str,
}

/// The words `sums MANIFEST` and `sums -o OUT MANIFEST`.
#[derive(Drop)]
pub struct Sums<'a> {
    /// The name of the manifest.
    pub manifest: &'a str,
    /// The name of the file that gets the manifest with all sums, where it is asked for.
    pub output: Option<&'a str>,
}

/// The words `measure LAYOUT`.
#[derive(Drop)]
pub struct Measure<'a> {
    /// The name of the file that lists the enclave's layout.
    pub layout: &'a str,
}

/// What the words ask for.
#[derive(Drop)]
pub enum Command<'a> {
    /// Writes the content of a protected file to the output.
    Decrypt(Decrypt<'a>),
    /// Makes a protected file of a plain one.
    Encrypt(Encrypt<'a>),
    /// Answers the script that the input is.
    Session(Session<'a>),
    /// Renders a template to the text of a manifest.
    Manifest(Manifest<'a>),
    /// Sums the files that a manifest trusts.
    Sums(Sums<'a>),
    /// Measures a listed layout of an enclave.
    Measure(Measure<'a>),
}

// Whether the words are the command of this name, with a key.
fn is_with_key(command: &str, name: &str, key_option: &str) -> bool
    ensures { IsTrue result ↔ (command.now ≡ name.now) × (key_option.now ≡ codes "-w") }
{
    command == name && key_option == "-w"
}

// Whether the words are the command of this name, with a key and an input.
fn is_with_input(command: &str, name: &str, key_option: &str, input_option: &str) -> bool
    ensures { IsTrue result ↔ (command.now ≡ name.now) × (key_option.now ≡ codes "-w") × (input_option.now ≡ codes "-i") }
{
    is_with_key(command, name, key_option) && input_option == "-i"
}

fn decrypt_of(words: &[String]) -> Option<Decrypt<'_>>
    ensures found { IfSome result (λ command. texts words.now ≡ decrypt_words command.key.now command.input.now) }
    ensures none { IfNone result ((key input : List ℕ) → texts words.now ≡ decrypt_words key input → ⊥) }
{
    let [command, key_option, key, input_option, input] = words else {
        return None;
    };
    if !is_with_input(
        command.as_str(),
        "decrypt",
        key_option.as_str(),
        input_option.as_str(),
    ) {
        return None;
    }
    Some(Decrypt {
        key: key.as_str(),
        input: input.as_str(),
    })
}

fn is_encrypt(command: &str, key_option: &str, input_option: &str, output_option: &str) -> bool
    ensures { IsTrue result ↔ (command.now ≡ codes "encrypt") × (key_option.now ≡ codes "-w") × (input_option.now ≡ codes "-i") × (output_option.now ≡ codes "-o") }
{
    is_with_input(command, "encrypt", key_option, input_option) && output_option == "-o"
}

fn encrypt_of(words: &[String]) -> Option<Encrypt<'_>>
    ensures found { IfSome result (λ command. texts words.now ≡ encrypt_words command.key.now command.input.now command.output.now) }
    ensures none { IfNone result ((key input output : List ℕ) → texts words.now ≡ encrypt_words key input output → ⊥) }
{
    let [
        command,
        key_option,
        key,
        input_option,
        input,
        output_option,
        output,
    ] = words
    else {
        return None;
    };
    if !is_encrypt(
        command.as_str(),
        key_option.as_str(),
        input_option.as_str(),
        output_option.as_str(),
    ) {
        return None;
    }
    Some(Encrypt {
        key: key.as_str(),
        input: input.as_str(),
        output: output.as_str(),
    })
}

fn session_of(words: &[String]) -> Option<Session<'_>>
    ensures found { IfSome result (λ command. texts words.now ≡ session_words command.key.now) }
    ensures none { IfNone result ((key : List ℕ) → texts words.now ≡ session_words key → ⊥) }
{
    let [command, key_option, key] = words else {
        return None;
    };
    if !is_with_key(command.as_str(), "session", key_option.as_str()) {
        return None;
    }
    Some(Session { key: key.as_str() })
}

/// Whether a word is no option: it does not begin with `-`, or is `-` alone.
pub(crate) fn is_operand(word: &str) -> bool
    ensures { IsTrue result ↔ IsOperand word.now }
{
    word.len() < 2 || word.as_bytes()[0] != b'-'
}

// Whether a word is the name of a command, and another is an operand.
fn is_operand_of(command: &str, name: &str, operand: &str) -> bool
    ensures { IsTrue result ↔ (command.now ≡ name.now) × IsOperand operand.now }
{
    command == name && is_operand(operand)
}

// The operand that alone follows the name of a command.
fn one_operand<'a>(words: &'a [String], name: &str) -> Option<&'a str>
    ensures found { IfSome result (λ operand. (texts words.now ≡ name.now ∷ operand.now ∷ []) × IsOperand operand.now) }
    ensures none { IfNone result ((operand : List ℕ) → texts words.now ≡ name.now ∷ operand ∷ [] → IsOperand operand → ⊥) }
{
    let [command, operand] = words else {
        return None;
    };
    if !is_operand_of(command.as_str(), name, operand.as_str()) {
        return None;
    }
    Some(operand.as_str())
}

fn sums_alone(words: &[String]) -> Option<Sums<'_>>
    ensures found { IfSome result (λ command. AskFor (texts words.now) (SumsOf command.manifest.now (option_map (λ name. name.now) command.output))) }
    ensures none { IfNone result ((manifest : List ℕ) → AskFor (texts words.now) (SumsOf manifest None) → ⊥) }
{
    match one_operand(words, "sums") {
        Some(manifest) => Some(Sums {
            manifest,
            output: None,
        }),
        None => None,
    }
}

fn is_sums_to_file(command: &str, option: &str, manifest: &str) -> bool
    ensures { IsTrue result ↔ (command.now ≡ codes "sums") × (option.now ≡ codes "-o") × IsOperand manifest.now }
{
    is_operand_of(command, "sums", manifest) && option == "-o"
}

fn sums_to_file(words: &[String]) -> Option<Sums<'_>>
    ensures found { IfSome result (λ command. AskFor (texts words.now) (SumsOf command.manifest.now (option_map (λ name. name.now) command.output))) }
    ensures none { IfNone result ((manifest output : List ℕ) → AskFor (texts words.now) (SumsOf manifest (Some output)) → ⊥) }
{
    let [command, option, output, manifest] = words else {
        return None;
    };
    if !is_sums_to_file(command.as_str(), option.as_str(), manifest.as_str()) {
        return None;
    }
    Some(Sums {
        manifest: manifest.as_str(),
        output: Some(output.as_str()),
    })
}

fn sums_of(words: &[String]) -> Option<Sums<'_>>
    ensures found { IfSome result (λ command. AskFor (texts words.now) (SumsOf command.manifest.now (option_map (λ name. name.now) command.output))) }
    ensures none { IfNone result ((manifest : List ℕ) (output : Option (List ℕ)) → AskFor (texts words.now) (SumsOf manifest output) → ⊥) }
{
    match sums_alone(words) {
        Some(command) => Some(command),
        None => sums_to_file(words),
    }
}

fn measure_of(words: &[String]) -> Option<Measure<'_>>
    ensures found { IfSome result (λ command. AskFor (texts words.now) (MeasureOf command.layout.now)) }
    ensures none { IfNone result ((layout : List ℕ) → AskFor (texts words.now) (MeasureOf layout) → ⊥) }
{
    match one_operand(words, "measure") {
        Some(layout) => Some(Measure { layout }),
        None => None,
    }
}

/// The command of the words, or `None` where they are none.
pub fn command_of(words: &[String]) -> Option<Command<'_>>
    ensures found { IfSome result (λ command. AskFor (texts words.now) (request_of command)) }
    ensures none { IfNone result (AskForNothing (texts words.now)) }
{
    if let Some(command) = decrypt_of(words) {
        return Some(Command::Decrypt(command));
    }
    if let Some(command) = encrypt_of(words) {
        return Some(Command::Encrypt(command));
    }
    if let Some(command) = session_of(words) {
        return Some(Command::Session(command));
    }
    if let Some(command) = manifest_of(words) {
        return Some(Command::Manifest(command));
    }
    if let Some(command) = sums_of(words) {
        return Some(Command::Sums(command));
    }
    match measure_of(words) {
        Some(command) => Some(Command::Measure(command)),
        None => None,
    }
}
