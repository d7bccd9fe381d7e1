mod entities;
mod entity_faults;
mod laws;
mod replies;
mod reply_faults;
mod request_faults;
mod requests;
