// The form that the program is asked for.
use std::env::FillError;
use std::rt::Env;
use stream::Form;

// `old`, `new`, or no argument, which is `old`; none where there is another.
pub fn form(rt: &HostRuntime) -> Option<Form> {
    let mut word = [0u8; 8];
    match rt.arg(1, &mut word) {
        Err(FillError::NotPresent) => Some(Form::Old),
        Err(FillError::TooLong) => None,
        Ok(length) => match word.get(..length)? {
            b"old" => Some(Form::Old),
            b"new" => Some(Form::New),
            _ => None,
        },
    }
}
