//! The texts of replies: `edited COUNT DROPPED`, `done COUNT`, `shown TEXT`, `wrong ERROR`, `lex FAULT NUMBER` and
//! `refused REFUSAL NUMBER`.

use crate::grown::{number, small, word};
use crate::trouble::Trouble;
use pc_command::{Answer, CommandError, Refusal, reply};
use pc_lex::LexError;
use pc_syntax::Word;
use std::alloc::Global;

pub fn answer(alloc: Global, input: &[u8]) -> Result<Vec<u8>, Trouble> {
    let (call, rest) = word(input);
    let (first, second) = word(rest);
    let answer = match call {
        b"edited" => Answer::Edited(number(first)?, number(second)?),
        b"done" => Answer::Done(number(first)?),
        b"shown" => Answer::Shown(Word::new(alloc, rest)?),
        b"wrong" => Answer::Wrong(error_named(first)?),
        b"lex" => Answer::Refused(Refusal::Lex(fault_named(first, second)?)),
        b"refused" => Answer::Refused(refusal_named(first, second)?),
        _ => return Err(Trouble::BadInput),
    };
    Ok(reply(alloc, &answer)?.bytes().to_vec(alloc)?)
}

fn error_named(name: &[u8]) -> Result<CommandError, Trouble> {
    match name {
        b"TooLong" => Ok(CommandError::TooLong),
        b"Unknown" => Ok(CommandError::Unknown),
        b"NotBuilt" => Ok(CommandError::NotBuilt),
        b"BadNumber" => Ok(CommandError::BadNumber),
        b"BadPath" => Ok(CommandError::BadPath),
        b"Missing" => Ok(CommandError::Missing),
        b"Extra" => Ok(CommandError::Extra),
        b"NoMemory" => Ok(CommandError::NoMemory),
        _ => Err(Trouble::BadInput),
    }
}

fn fault_named(name: &[u8], byte: &[u8]) -> Result<LexError, Trouble> {
    match name {
        b"BadByte" => Ok(LexError::BadByte(number(byte)?)),
        b"OpenComment" => Ok(LexError::OpenComment(number(byte)?)),
        b"OpenString" => Ok(LexError::OpenString(number(byte)?)),
        b"EmptyString" => Ok(LexError::EmptyString(number(byte)?)),
        b"LongNumeral" => Ok(LexError::LongNumeral(number(byte)?)),
        b"NoMemory" => Ok(LexError::NoMemory),
        _ => Err(Trouble::BadInput),
    }
}

fn refusal_named(name: &[u8], amount: &[u8]) -> Result<Refusal, Trouble> {
    match name {
        b"BadRange" => Ok(Refusal::BadRange),
        b"NoPlace" => Ok(Refusal::NoPlace),
        b"NoTemplate" => Ok(Refusal::NoTemplate),
        b"NotFit" => Ok(Refusal::NotFit(number(amount)?)),
        b"TooDeep" => Ok(Refusal::TooDeep(small(amount)?)),
        b"TooLarge" => Ok(Refusal::TooLarge(number(amount)?)),
        b"NothingToUndo" => Ok(Refusal::NothingToUndo),
        b"NothingToRedo" => Ok(Refusal::NothingToRedo),
        b"NoMemory" => Ok(Refusal::NoMemory),
        _ => Err(Trouble::BadInput),
    }
}
