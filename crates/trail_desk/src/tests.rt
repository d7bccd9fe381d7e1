// Desks that several threads work on. What a closed trail must have is worked by hand from what each thread does.
mod rooms;
mod shelf;
mod sum;
mod threads;
