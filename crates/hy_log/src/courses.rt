//! The courses of the operations of all clients.

ghost use Rattle.std.specs.Prelude.{◌≡◌, ◌<◌, ◌==◌, ℕ, [], length, OnOk, IfSome, IfNone};
ghost use Rattle.std.specs.Prelude.{if◌then◌else◌};
ghost use Rattle.hy_log.specs.Courses.{fresh, course_in, course_at, noted, noted_by};

use crate::course::{Course, News};
use crate::notes::Note;
use hy_base::NoMemory;
use std::alloc::Global;
use std::marker::Model;

/// The courses of the operations of a client, each at the operation's number.
#[derive(Debug, Drop)]
pub(crate) struct ClientCourses {
    courses: Vec<Course>,
}

impl Model for ClientCourses {
    ghost use Rattle.std.specs.Prelude.{List};
    ghost use Rattle.hy_log.specs.declared.course.Course.{Course};

    ghost Value = { List Course };

    ghost view = { λ list. list.courses.items };
}

impl ClientCourses {
    /// No operation.
    fn new(alloc: Global) -> ClientCourses
        ensures { result ≡ [] }
    {
        ClientCourses {
            courses: Vec::new(alloc),
        }
    }

    /// The course of the operation of this number; none where nothing was noted of it.
    fn get(&self, op: u32) -> Option<&Course>
        ensures some { IfSome result (λ course. course.now ≡ course_in self.now op) }
        ensures none { IfNone result (course_in self.now op ≡ fresh) }
    {
        self.courses.get(op as usize)
    }

    /// Notes what the operation of this number meets.
    fn note(&mut self, op: u32, news: News) -> Result<(), NoMemory>
        ensures { OnOk result ((o : ℕ) → course_in self.new o
            ≡ (if op == o then noted news (course_in self.old o) else course_in self.old o)) }
    {
        reach_operation(&mut self.courses, op)?;
        self.courses[op as usize].note(news);
        Ok(())
    }
}

/// Makes the list long enough for the operation of this number.
fn reach_operation(courses: &mut Vec<Course>, op: u32) -> Result<(), NoMemory>
    ensures reached { OnOk result (op < length courses.new.items) }
    ensures same { OnOk result ((o : ℕ) →
        course_in courses.new.items o ≡ course_in courses.old.items o) }
{
    for _number in courses.len()..op as usize + 1 {
        courses.push(Course::new())?;
    }
    Ok(())
}

/// The courses of the operations of all clients, by the number of the client.
#[derive(Debug, Drop)]
pub struct Courses {
    clients: Vec<ClientCourses>,
}

impl Model for Courses {
    ghost use Rattle.std.specs.Prelude.{List};
    ghost use Rattle.hy_log.specs.declared.course.Course.{Course};

    ghost Value = { List (List Course) };

    ghost view = { λ all. all.clients.items };
}

impl Courses {
    /// No client.
    pub(crate) fn new(alloc: Global) -> Courses
        ensures { result ≡ [] }
    {
        Courses {
            clients: Vec::new(alloc),
        }
    }

    /// The course of an operation; none where nothing was noted of it.
    pub(crate) fn get(&self, client: u32, op: u32) -> Option<&Course>
        ensures some { IfSome result (λ course. course.now ≡ course_at self.now client op) }
        ensures none { IfNone result (course_at self.now client op ≡ fresh) }
    {
        let courses = self.clients.get(client as usize)?;
        courses.get(op)
    }

    /// Notes what an operation meets, if it meets something.
    pub(crate) fn note(&mut self, note: Option<Note>) -> Result<(), NoMemory>
        ensures { OnOk result ((c o : ℕ) →
            course_at self.new c o ≡ noted_by note c o (course_at self.old c o)) }
    {
        let Some(Note { client, op, news }) = note else {
            return Ok(());
        };
        reach_client(&mut self.clients, client)?;
        self.clients[client as usize].note(op, news)
    }
}

/// Makes the list long enough for the client of this number.
fn reach_client(clients: &mut Vec<ClientCourses>, client: u32) -> Result<(), NoMemory>
    ensures reached { OnOk result (client < length clients.new.items) }
    ensures same { OnOk result ((c o : ℕ) →
        course_at clients.new.items c o ≡ course_at clients.old.items c o) }
{
    let alloc = *clients.allocator();
    for _number in clients.len()..client as usize + 1 {
        clients.push(ClientCourses::new(alloc))?;
    }
    Ok(())
}
